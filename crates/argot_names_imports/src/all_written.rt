// The imports of all files.
ghost use Rattle.std.specs.Prelude.{IfOk, length};
ghost use Rattle.argot_names_rules.specs.Lists.{IsListOf};
ghost use Rattle.argot_files.specs.Reading.{files_in};
ghost use Rattle.argot_names_imports.specs.Reads.{handed};
ghost use Rattle.argot_names_imports.specs.AllWritten.{InOrder, IsAnImport};

use crate::handed::{bytes_at, nodes_at, tokens_at};
use crate::written::{Written, imports_of};
use argot_files::Files;
use argot_text::{Memory, Sources};
use argot_tree::{Lexed, Tree};
use std::alloc::Global;

/// The imports of all files, by file and node.
pub fn all_imports(alloc: Global, files: &Files) -> Result<Vec<Written>, Memory>
    ensures { IfOk result (λ v. IsListOf InOrder (IsAnImport (files_in files.now)) v.items) }
{
    let Ok(count) = u32::try_from(files.trees.len()) else {
        return Err(Memory);
    };
    let mut all = Vec::new(alloc);
    for file in 0..count {
        let mut imports = imports_of(
            alloc,
            file,
            bytes_at(files.sources, file),
            tokens_at(files.lexed, file),
            nodes_at(files.trees, file),
        )?;
        all.append(&mut imports)?;
    }
    Ok(all)
}
