// What an import path finds.
ghost use Rattle.std.specs.Prelude.{◌≡◌, ◌++◌, IfOk, codes};
ghost use Rattle.std.specs.Option.{option_and_then};
ghost use Rattle.argot_names_rules.specs.Files.{SourceFiles};
ghost use Rattle.argot_names_imports.specs.Candidates.{candidate_of};
ghost use Rattle.argot_names_imports.specs.Firsts.{found_at};
ghost use Rattle.argot_names_imports.specs.Found.{IsText, HasTables, IsFound};

use crate::paths::{candidate, is_left_out, library_text};
use argot_text::Memory;
use indexmap::IndexMap;
use std::alloc::Global;

/// What a path finds: the first file of a package.
#[derive(Clone, Copy)]
pub enum Found {
    /// A package in a folder.
    Folder(u32),
    /// A text of the library, which may not be handed over.
    Library(Option<u32>),
    /// A package that is left out.
    LeftOut,
    Nothing,
}

// The first file of the folder of the module that the path names.
fn module_folder(folders: &IndexMap<&[u8], u32>, module: &[u8], path: &[u8]) -> Option<u32>
    ensures { result ≡ option_and_then (found_at folders.now) (candidate_of module.now path.now) }
{
    let folder = candidate(module, path)?;
    folders.get(folder).copied()
}

// The first file of the folder below `stubs/` that has this path.
fn stub_folder(
    alloc: Global,
    folders: &IndexMap<&[u8], u32>,
    path: &[u8],
) -> Result<Option<u32>, Memory>
    ensures { IfOk result (λ o. o ≡ found_at folders.now (codes "stubs/" ++ path.now)) }
{
    let mut folder = Vec::new(alloc);
    folder.extend_from_slice("stubs/".as_bytes())?;
    folder.extend_from_slice(path)?;
    Ok(folders.get(folder.as_slice()).copied())
}

// What a path finds that is no folder's.
fn find_text(libraries: &IndexMap<&[u8], u32>, path: &[u8]) -> Found
    ensures { IsText path.now (found_at libraries.now path.now) result }
{
    match library_text(path) {
        Some(_) => Found::Library(libraries.get(path).copied()),
        None => Found::Nothing,
    }
}

/// What a path finds, by the tables of the first files. The module's path and the tables are those of the files handed
/// over.
pub fn find(
    alloc: Global,
    folders: &IndexMap<&[u8], u32>,
    libraries: &IndexMap<&[u8], u32>,
    module: &[u8],
    path: &[u8],
) -> Result<Found, Memory>
    ensures { (h : SourceFiles) → HasTables h module.now folders.now libraries.now → IfOk result (IsFound h path.now) }
{
    if is_left_out(path) {
        return Ok(Found::LeftOut);
    }
    if let Some(file) = module_folder(folders, module, path) {
        return Ok(Found::Folder(file));
    }
    if let Some(file) = stub_folder(alloc, folders, path)? {
        return Ok(Found::Folder(file));
    }
    Ok(find_text(libraries, path))
}
