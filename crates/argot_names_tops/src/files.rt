// The names of each file of a package that is reached.
ghost use Rattle.std.specs.Prelude.{◌≡◌, ◌<◌, ℕ, List, Some, IfOk, IfSome, IfNone, length, slice_get};
ghost use Rattle.argot_names_rules.specs.Agreeing.{Agrees, IsRead};
ghost use Rattle.argot_files.specs.Reading.{files_in};
ghost use Rattle.argot_names_imports.specs.Reads.{handed};
ghost use Rattle.argot_names_scopes.specs.declared.file.FileNames.{FileNames};
ghost use Rattle.argot_names_imports.specs.Reached.{IsReach};
ghost use Rattle.argot_names_tops.specs.Tops.{IsNamesOf, IsFileEntry, AreFiles};

use argot_files::Files;
use argot_names_imports::{Reached, bytes_at, package_of, tokens_at};
use argot_names_scopes::{FileNames, names_of};
use argot_text::{Memory, Sources};
use argot_tree::{Lexed, Tree};
use std::alloc::Global;

// The tree of this number.
fn tree_at(trees: &[Tree], file: usize) -> &Tree
    requires { file < length trees.now }
    ensures { slice_get trees.now file ≡ Some result.now }
{
    &trees[file]
}

// The names of a file that was read.
fn names_in<'a>(alloc: Global, files: &Files<'a>, file: u32) -> Result<FileNames<'a>, Memory>
    requires there { file < length files.now.trees.now }
    requires read { IsRead (files_in files.now) file }
    ensures { IfOk result (IsNamesOf (files_in files.now) file) }
{
    names_of(
        alloc,
        bytes_at(files.sources, file),
        tokens_at(files.lexed, file),
        tree_at(files.trees, file as usize),
    )
}

// The names of a file, where it is of a package that is reached.
fn names_if<'a>(
    alloc: Global,
    files: &Files<'a>,
    reached: &Reached,
    file: u32,
) -> Result<Option<FileNames<'a>>, Memory>
    requires there { file < length files.now.trees.now }
    requires reached { (main : List ℕ) × Agrees (files_in files.now) × IsReach (files_in files.now) main reached.now }
    ensures { IfOk result (IsFileEntry (files_in files.now) reached.now file) }
{
    match package_of(reached, file) {
        Some(_) => Ok(Some(names_in(alloc, files, file)?)),
        None => Ok(None),
    }
}

/// The names of each file that is of a package that is reached, by the files' numbers.
pub fn files_of<'a>(
    alloc: Global,
    files: &Files<'a>,
    reached: &Reached,
) -> Result<Vec<Option<FileNames<'a>>>, Memory>
    requires { (main : List ℕ) × Agrees (files_in files.now) × IsReach (files_in files.now) main reached.now }
    ensures { IfOk result (λ v. AreFiles (files_in files.now) reached.now v.items) }
{
    let Ok(count) = u32::try_from(files.trees.len()) else {
        return Err(Memory);
    };
    let mut names = Vec::new(alloc);
    for file in 0..count {
        names.push(names_if(alloc, files, reached, file)?)?;
    }
    Ok(names)
}

/// The names at this number, where there are some. No memory.
pub fn names_at<'t, 'a>(
    files: &'t [Option<FileNames<'a>>],
    file: usize,
) -> Option<&'t FileNames<'a>>
    ensures some { IfSome result (λ n. slice_get files.now file ≡ Some (Some n.now)) }
    ensures none { IfNone result ((n : FileNames) → slice_get files.now file ≡ Some (Some n) → ⊥) }
{
    if file < files.len() {
        files[file].as_ref()
    } else {
        None
    }
}
