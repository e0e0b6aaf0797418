// Folders and files, as a caller sees them.
ghost use Rattle.std.specs.Prelude.{◌≡◌, ◌≤◌, List, ℕ, Option, IfOk, IfSome};
ghost use Rattle.argot_io.specs.Faults.{HasCause};
ghost use Rattle.argot_io.specs.Told.{Entry, HasDistinctPaths, ListsTold, ReadsTold};
ghost use Rattle.argot_io.specs.declared.files.FilesCall.{FilesCall};

use argot_text::{Memory, Text, Texts};
use std::alloc::Global;
use thiserror::Error;

/// A call of `Files`, with the path that it was handed.
#[derive(Debug, Drop)]
pub enum FilesCall {
    Listing(Text),
    Reading(Text),
}

/// Why a folder wasn't listed or a file not read.
#[derive(Clone, Copy, Debug, PartialEq, Eq, Error)]
pub enum FilesFault {
    #[error("it failed")]
    Failed,
    #[error("out of memory")]
    Memory,
}

impl From<Memory> for FilesFault {
    ghost use Rattle.std.specs.Prelude.{◌≡◌};
    ghost use Rattle.argot_io.specs.declared.files.FilesFault.TheVariants as fault;

    ghost from_gives = { λ _ e. e ≡ fault.Memory };

    fn from(_: Memory) -> FilesFault {
        FilesFault::Memory
    }
}

/// Folders and files. Paths have `/` between their parts.
pub trait Files {
    /// Each path and its bytes, where the files tell what they hold.
    ghost told: { Self → Option (List Entry) };

    /// How often a call has failed. It never falls: at the last value of its type it stays.
    ghost faults: { Self → ℕ };

    /// The call that failed last.
    ghost last: { Self → Option FilesCall };

    /// The paths of the files below the folder, relative to it, in byte order.
    fn list(&mut self, alloc: Global, dir: &str) -> Result<Texts, FilesFault>
        ensures told { told self.new ≡ told self.old }
        ensures distinct { IfSome (told self.old) HasDistinctPaths }
        ensures listed { IfOk result (λ texts. ListsTold (told self.old) dir.now texts) }
        ensures rises { faults self.old ≤ faults self.new }
        ensures cause { HasCause result (faults self.old) (faults self.new) (last self.old) (last self.new) (FilesCall.Listing dir.now) };

    /// The bytes of the file at the path.
    fn read(&mut self, alloc: Global, path: &str) -> Result<Vec<u8>, FilesFault>
        ensures told { told self.new ≡ told self.old }
        ensures distinct { IfSome (told self.old) HasDistinctPaths }
        ensures bytes { IfOk result (λ bytes. ReadsTold (told self.old) path.now bytes.items) }
        ensures rises { faults self.old ≤ faults self.new }
        ensures cause { HasCause result (faults self.old) (faults self.new) (last self.old) (last self.new) (FilesCall.Reading path.now) };
}
