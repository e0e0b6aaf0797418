// Files in memory, which fail where they are told to.
ghost use Rattle.std.specs.Prelude.{◌≡◌, ◌≤◌, ◌⊎◌, ◌↔◌, Contains, IsTrue, IfOk, IfSome, IsErrOf, IsOk, None, Some};
ghost use Rattle.argot_io.specs.Entries.{entries_of};
ghost use Rattle.argot_io.specs.Faults.{HasCause};
ghost use Rattle.argot_io.specs.Memory.{counted};
ghost use Rattle.argot_io.specs.Told.{HasDistinctPaths, ListsTold, ReadsTold, content};
ghost use Rattle.argot_io.specs.declared.files.FilesCall.{FilesCall};
ghost use Rattle.argot_io.specs.declared.files.FilesFault.{FilesFault};

use crate::entries::{found, listed};
use crate::numbers::is_among;
use crate::{Files, FilesCall, FilesFault};
use argot_text::{Text, Texts};
use std::alloc::Global;
use std::marker::Model;

/// Files that hold their entries, pairs of a path and bytes, and fail at the calls whose numbers, counted from 1 over
/// `list` and `read` together, they were handed.
#[derive(Debug, Drop)]
pub struct MemFiles {
    entries: Vec<(Text, Vec<u8>)>,
    failing: Vec<u32>,
    calls: u64,
    faults: u64,
    last: Option<FilesCall>,
}

impl Model for MemFiles {
    ghost use Rattle.argot_io.specs.Memory.{FilesInMemory};

    ghost Value = { FilesInMemory };

    ghost use Rattle.argot_io.specs.MemFilesFields.{files_in_memory, AreDistinct};

    ghost view = { files_in_memory };

    ghost invariant = { AreDistinct };
}

impl MemFiles {
    /// Files with these entries, whose paths are distinct. It takes no memory.
    pub fn new(_alloc: Global, entries: Vec<(Text, Vec<u8>)>, failing: Vec<u32>) -> MemFiles
        requires { HasDistinctPaths (entries_of entries.items) }
        ensures { result ≡ record { entries = entries_of entries.items; failing = failing.items; calls = 0; faults = 0; last = None } }
    {
        MemFiles {
            entries,
            failing,
            calls: 0,
            faults: 0,
            last: None,
        }
    }

    /// How often a call has failed.
    pub fn faults(&self) -> u64
        ensures { result ≡ self.now.faults }
    {
        self.faults
    }

    /// The call that failed last.
    pub fn last(&self) -> &Option<FilesCall>
        ensures { result.now ≡ self.now.last }
    {
        &self.last
    }

    // Counts the call, and tells whether it is one that fails.
    fn begin(&mut self) -> bool
        ensures named { IsTrue result ↔ Contains self.old.failing (counted self.old.calls) }
        ensures counts { self.new ≡ record self.old { calls = counted self.old.calls } }
    {
        self.calls = self.calls.saturating_add(1);
        is_among(self.failing.as_slice(), self.calls)
    }

    // Counts a fault.
    fn fail<T>(&mut self, call: FilesCall) -> Result<T, FilesFault>
        ensures failed { result ≡ Err FilesFault.Failed }
        ensures changed { self.new ≡ record self.old { faults = counted self.old.faults; last = Some call } }
    {
        self.faults = self.faults.saturating_add(1);
        self.last = Some(call);
        Err(FilesFault::Failed)
    }
}

impl Files for MemFiles {
    ghost told = { λ it. Some it.entries };

    ghost faults = { λ it. it.faults };

    ghost last = { λ it. it.last };

    fn list(&mut self, alloc: Global, dir: &str) -> Result<Texts, FilesFault>
        ensures told { Some self.new.entries ≡ Some self.old.entries }
        ensures distinct { IfSome (Some self.old.entries) HasDistinctPaths }
        ensures listed { IfOk result (λ texts. ListsTold (Some self.old.entries) dir.now texts) }
        ensures rises { self.old.faults ≤ self.new.faults }
        ensures cause { HasCause result self.old.faults self.new.faults self.old.last self.new.last (FilesCall.Listing dir.now) }
        ensures failing { self.new.failing ≡ self.old.failing }
        ensures calls { self.new.calls ≡ counted self.old.calls }
        ensures only { IsErrOf result FilesFault.Failed → Contains self.old.failing (counted self.old.calls) }
        ensures surely { Contains self.old.failing (counted self.old.calls) → IsOk result → ⊥ }
    {
        let _entries = &self.entries;
        let fails = self.begin();
        let asked = Text::from_str(alloc, dir)?;
        if fails {
            return self.fail(FilesCall::Listing(asked));
        }
        Ok(listed(alloc, self.entries.as_slice(), dir)?)
    }

    fn read(&mut self, alloc: Global, path: &str) -> Result<Vec<u8>, FilesFault>
        ensures told { Some self.new.entries ≡ Some self.old.entries }
        ensures distinct { IfSome (Some self.old.entries) HasDistinctPaths }
        ensures bytes { IfOk result (λ bytes. ReadsTold (Some self.old.entries) path.now bytes.items) }
        ensures rises { self.old.faults ≤ self.new.faults }
        ensures cause { HasCause result self.old.faults self.new.faults self.old.last self.new.last (FilesCall.Reading path.now) }
        ensures failing { self.new.failing ≡ self.old.failing }
        ensures calls { self.new.calls ≡ counted self.old.calls }
        ensures only { IsErrOf result FilesFault.Failed → Contains self.old.failing (counted self.old.calls) ⊎ (content path.now self.old.entries ≡ None) }
        ensures surely { Contains self.old.failing (counted self.old.calls) → IsOk result → ⊥ }
    {
        let _entries = &self.entries;
        let fails = self.begin();
        let asked = Text::from_str(alloc, path)?;
        if fails {
            return self.fail(FilesCall::Reading(asked));
        }
        match found(self.entries.as_slice(), path) {
            None => self.fail(FilesCall::Reading(asked)),
            Some(bytes) => match Vec::from_slice(alloc, bytes.as_slice()) {
                Ok(copy) => Ok(copy),
                Err(_) => Err(FilesFault::Memory),
            },
        }
    }
}
