// The folders and files of the system. It is a trusted edge: nothing is said of what they hold.
ghost use Rattle.std.specs.Prelude.{◌≤◌, None};
ghost use Rattle.argot_io.specs.Faults.{HasCause};

use crate::{Files, FilesCall, FilesFault};
use argot_text::{Text, Texts};
use std::alloc::Global;
use std::fs;
use std::io::{Error, ErrorKind, Read, Result as IoResult};
use std::rt::Files as System;

/// How many entries a folder may have below it.
const MOST_ENTRIES: u32 = 1_000_000;

/// How many bytes a file may have: 64 MiB.
const MOST_BYTES: u64 = 1 << 26;

/// The system's files. `list` walks folders without following links, and counts a fault past 1,000,000 entries or at
/// a name that isn't UTF-8; `read` counts one past 64 MiB, and for what isn't a regular file, as a pipe, a device or a
/// socket, also behind a link: such a one isn't opened, since that could wait.
#[derive(Drop)]
pub struct RealFiles<R: System + AllocGlobal + Drop> {
    rt: R,
    faults: u64,
    last: Option<FilesCall>,
}

impl<R: System + AllocGlobal + Drop> RealFiles<R> {
    /// The files that the runtime reaches. It takes no memory.
    pub fn new(rt: R) -> RealFiles<R> {
        RealFiles {
            rt,
            faults: 0,
            last: None,
        }
    }

    // What the system answered, with its fault counted.
    fn answered<T: Drop>(&mut self, call: FilesCall, answer: IoResult<T>) -> Result<T, FilesFault>
        ensures rises { self.old.faults ≤ self.new.faults }
        ensures cause { HasCause result self.old.faults self.new.faults self.old.last self.new.last call }
    {
        match answer {
            Ok(found) => Ok(found),
            Err(error) if error.kind() == ErrorKind::OutOfMemory => Err(FilesFault::Memory),
            Err(_) => {
                self.faults = self.faults.saturating_add(1);
                self.last = Some(call);
                Err(FilesFault::Failed)
            }
        }
    }
}

impl<R: System + AllocGlobal + Drop> Files for RealFiles<R> {
    ghost told = { λ _. None };

    ghost faults = { λ it. it.faults };

    ghost last = { λ it. it.last };

    fn list(&mut self, alloc: Global, dir: &str) -> Result<Texts, FilesFault> {
        let asked = Text::from_str(alloc, dir)?;
        let answer = walked(&self.rt, alloc, dir);
        self.answered(FilesCall::Listing(asked), answer)
    }

    fn read(&mut self, alloc: Global, path: &str) -> Result<Vec<u8>, FilesFault> {
        let asked = Text::from_str(alloc, path)?;
        let answer = whole_file(&self.rt, alloc, path);
        self.answered(FilesCall::Reading(asked), answer)
    }
}

// The bytes of the file, if it is a regular one and there aren't too many.
fn whole_file<R: System>(rt: &R, alloc: Global, path: &str) -> IoResult<Vec<u8>> {
    if !fs::metadata(rt, path)?.is_file() {
        return Err(Error::from(ErrorKind::InvalidInput));
    }
    let file = fs::open(rt, path)?;
    let mut bytes = Vec::new(alloc);
    file.take(MOST_BYTES + 1).read_to_end(&mut bytes)?;
    if bytes.len() as u64 > MOST_BYTES {
        return Err(Error::from(ErrorKind::FileTooLarge));
    }
    Ok(bytes)
}

// What a walk has found so far.
#[derive(Drop)]
struct Walk {
    entries: u32,
    files: Vec<Text>,
    waiting: Vec<String>,
}

// The paths of all files below the folder, relative to it, in byte order.
fn walked<R: System + AllocGlobal + Drop>(rt: &R, alloc: Global, dir: &str) -> IoResult<Texts> {
    let mut walk = Walk {
        entries: 0,
        files: Vec::new(alloc),
        waiting: Vec::new(alloc),
    };
    walk.waiting.push(String::new(alloc))?;
    // Each folder but the first is an entry.
    for _ in 0..=MOST_ENTRIES {
        let Some(folder) = walk.waiting.pop() else {
            break;
        };
        see_folder(rt, alloc, dir, folder.as_str(), &mut walk)?;
    }
    walk.files.sort()?;
    Ok(Texts::from_vec(walk.files))
}

// Adds the entries of one folder, whose path is relative to `dir`.
fn see_folder<R: System + AllocGlobal + Drop>(
    rt: &R,
    alloc: Global,
    dir: &str,
    folder: &str,
    walk: &mut Walk,
) -> IoResult<()> {
    let path = joined(alloc, dir, folder)?;
    for entry in fs::read_dir(&rt, path.as_str())? {
        let entry = entry?;
        if walk.entries >= MOST_ENTRIES {
            return Err(Error::from(ErrorKind::FileTooLarge));
        }
        walk.entries += 1;
        let name = joined(alloc, folder, entry.file_name())?;
        if entry.file_type()?.is_dir() {
            walk.waiting.push(name)?;
        } else {
            walk.files.push(Text::from_string(name))?;
        }
    }
    Ok(())
}

// The path of a part below a folder; either may be empty.
fn joined(alloc: Global, folder: &str, part: &str) -> IoResult<String> {
    let mut path = String::from_str(alloc, folder)?;
    if !folder.is_empty() && !part.is_empty() {
        path.push_str("/")?;
    }
    path.push_str(part)?;
    Ok(path)
}
