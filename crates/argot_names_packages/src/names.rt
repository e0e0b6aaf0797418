// The name of a package.
ghost use Rattle.std.specs.Prelude.{◌≡◌, Some, IfOk};
ghost use Rattle.argot_files.specs.Reading.{files_in};
ghost use Rattle.argot_names_imports.specs.Reads.{handed};
ghost use Rattle.argot_names_packages.specs.Clauses.{name_in};

use crate::clause_name;
use argot_files::Files;
use argot_text::{Memory, Sources, Text};
use argot_tree::{Lexed, Tree};
use std::alloc::Global;

// Bytes as a text; an identifier is one.
fn text_of(alloc: Global, bytes: &[u8]) -> Result<Text, Memory>
    ensures { IfOk result (λ t. t ≡ bytes.now) }
{
    match std::str::from_utf8(bytes) {
        Ok(text) => Text::from_str(alloc, text),
        Err(_) => Err(Memory),
    }
}

/// The name in the package clause of a file. In a file whose tree spells its tokens there is one.
pub fn name_of(alloc: Global, files: &Files, file: u32) -> Result<Text, Memory>
    ensures { IfOk result (λ t. name_in (files_in files.now) file ≡ Some t) }
{
    match clause_name(files, file) {
        Some(name) => text_of(alloc, name),
        None => Err(Memory),
    }
}
