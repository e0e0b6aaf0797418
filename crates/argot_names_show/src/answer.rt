// What is printed of a folder.
ghost use Rattle.std.specs.Prelude.{ℕ, List};
ghost use Rattle.argot_names_rules.specs.Agreeing.{Agrees, HasLibrary};
ghost use Rattle.argot_names_imports.specs.Reads.{handed};

use crate::folder::folder_in;
use crate::lines::{push_counts, push_lines, push_nodes};
use crate::words::Asked;
use argot_names::{NameFault, load};
use argot_names_files::{Folder, ReadingFault, folder_of_texts};
use argot_text::{Memory, Out, Pos};
use std::alloc::Global;
use std::fmt::Write;

// Where a fault is.
fn place_of(fault: &NameFault) -> Option<Pos> {
    match fault {
        NameFault::TwoNames { at } => Some(*at),
        NameFault::NoPackage { at } => Some(*at),
        NameFault::ImportCycle { at } => Some(*at),
        NameFault::Redeclared { at } => Some(*at),
        NameFault::Unresolved { at } => Some(*at),
        NameFault::NoMain => None,
        NameFault::Memory => None,
    }
}

// The line of a fault.
fn push_fault(
    alloc: Global,
    out: &mut Out,
    folder: &Folder,
    fault: &NameFault,
) -> Result<(), Memory> {
    if let Some(at) = place_of(fault) {
        if (at.file as usize) < folder.sources.paths.len() {
            out.push_pos(&folder.sources.paths, at)?;
            out.push_str(": ")?;
        }
    }
    let mut line = String::new(alloc);
    match write!(line, "{fault}") {
        Ok(()) => out.push_str(line.as_str())?,
        Err(_) => return Err(Memory),
    }
    out.push_str("\n")
}

// What is printed of files that are read.
fn push_loaded(alloc: Global, out: &mut Out, folder: &Folder, asked: Asked) -> Result<(), Memory>
    requires agrees { Agrees (handed folder.now.sources folder.now.lexed.items folder.now.trees.items) }
    requires library { (main : List ℕ)
        → HasLibrary (handed folder.now.sources folder.now.lexed.items folder.now.trees.items) main }
{
    match load(alloc, &folder.files(), "") {
        Ok(packages) => match asked {
            Asked::Count => push_counts(out, &packages),
            _ => push_lines(out, folder, &packages),
        },
        Err(NameFault::Memory) => Err(Memory),
        Err(fault) => push_fault(alloc, out, folder, &fault),
    }
}

/// What is printed of a folder that is written down as a text.
pub fn answer(alloc: Global, text: &str, asked: Asked) -> Result<Out, Memory> {
    let mut out = Out::new(alloc);
    let folder = folder_in(alloc, text)?;
    match folder_of_texts(alloc, &folder.files, folder.module, None) {
        Ok(Some(folder)) => match asked {
            Asked::Parse => push_nodes(&mut out, &folder)?,
            _ => push_loaded(alloc, &mut out, &folder, asked)?,
        },
        Ok(None) => out.push_str("no folder\n")?,
        Err(ReadingFault::Memory) => return Err(Memory),
        Err(_) => out.push_str("not read\n")?,
    }
    Ok(out)
}
