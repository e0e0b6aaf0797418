// The first name in a function that is declared again in its block.
ghost use Rattle.std.specs.Prelude.{◌≡◌, ℕ, List, Some, IfOk, length, slice_get};
ghost use Rattle.argot_names_rules.specs.Files.{SourceFiles};
ghost use Rattle.argot_names_rules.specs.Imports.{IsReachedFile};
ghost use Rattle.argot_names_rules.specs.declared.package_key.PackageKey.{PackageKey};
ghost use Rattle.argot_names_scopes.specs.Names.{AreNames};
ghost use Rattle.argot_names_scopes.specs.declared.file.FileNames.{FileNames};
ghost use Rattle.argot_names_imports.specs.declared.reached.Reached.{Reached};
ghost use Rattle.argot_names_imports.specs.Reached.{IsReach};
ghost use Rattle.argot_names_tops.specs.First.{NamesFirst};
ghost use Rattle.argot_names_tops.specs.Behind.{IsAgainIn, IsAgainBelow};
ghost use Rattle.argot_names_tops.specs.Tops.{IsNamesOf, AreFiles};

use crate::behind::sooner;
use crate::files::names_at;
use argot_files::Place;
use argot_names_scopes::{FileNames, redeclared};
use argot_text::Memory;

// That of one file.
fn again_in(names: &FileNames, file: u32) -> Option<Place>
    requires { AreNames names.now }
    ensures { (h : SourceFiles) (main : List ℕ) (home : PackageKey) → IsNamesOf h file names.now
        → IsReachedFile h main home file → NamesFirst (IsAgainIn h main file) result }
{
    match redeclared(names) {
        Some(offset) => Some(Place { file, offset }),
        None => None,
    }
}

// That of the file of this number, where it is of a package.
fn again_at(files: &[Option<FileNames>], file: u32) -> Option<Place>
    requires { (k : ℕ) (n : FileNames) → slice_get files.now k ≡ Some (Some n) → AreNames n }
    ensures { (h : SourceFiles) (main : List ℕ) (r : Reached) → IsReach h main r → AreFiles h r files.now
        → NamesFirst (IsAgainIn h main file) result }
{
    match names_at(files, file as usize) {
        Some(names) => again_in(names, file),
        None => None,
    }
}

/// That of all files.
pub fn first_in_functions(files: &[Option<FileNames>]) -> Result<Option<Place>, Memory>
    requires { (k : ℕ) (n : FileNames) → slice_get files.now k ≡ Some (Some n) → AreNames n }
    ensures { (h : SourceFiles) (main : List ℕ) (r : Reached) → IsReach h main r → AreFiles h r files.now
        → IfOk result (NamesFirst (IsAgainBelow h main (length files.now))) }
{
    let Ok(count) = u32::try_from(files.len()) else {
        return Err(Memory);
    };
    let mut first = None;
    for file in 0..count {
        first = sooner(first, again_at(files, file));
    }
    Ok(first)
}
