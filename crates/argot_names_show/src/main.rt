//! A window for maintainers: prints the packages of a folder that is written down as one text, their declarations, and what
//! each name stands for.
//!
//! It reads the file that is named, or `folder.txt`, in the folder where it runs. Its first line is the module's path, which
//! may be empty; then come the files, each behind a line `-- PATH --`, in byte order of their paths. `lines.rt` has the form of
//! what is printed; with the word `-count` it is how many packages, declarations and uses there are, and with `-parse` how many
//! nodes the trees of the folder and of the library have, and nothing is resolved.
#![tactic(auto)]

mod answer;
mod folder;
mod lines;
mod places;
mod words;

use crate::answer::answer;
use crate::words::read_words;
use argot_text::Memory;
use std::io::Write;
use std::{fs, io};

#[cfg(test)]
mod tests;
#[cfg(test)]
mod texts;

fn main(rt: HostRuntime) -> io::Result<()> {
    let words = read_words(&rt)?;
    let path = match &words.file {
        Some(file) => file.as_str(),
        None => "folder.txt",
    };
    let text = fs::read_to_string(&rt, path)?;
    match answer(rt.alloc(), text.as_str(), words.asked) {
        Ok(out) => rt.stdout().write_all(out.bytes()),
        Err(Memory) => rt.stdout().write_all(b"out of memory\n"),
    }
}
