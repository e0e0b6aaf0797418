// The first import that finds no package.
ghost use Rattle.std.specs.Prelude.{◌≡◌, ◌<◌, ◌↔◌, List, ℕ, length};
ghost use Rattle.argot_names_rules.specs.Files.{SourceFiles, Place as Byte};
ghost use Rattle.argot_names_rules.specs.Faults.{FindsNone};
ghost use Rattle.argot_names_imports.specs.Surveyed.{IsSurvey};
ghost use Rattle.argot_names_packages.specs.Spots.{IsAt, IsLeast};
ghost use Rattle.argot_names_packages.specs.Missing.{is_nothing, IsMissingAt};

use crate::spot::{sooner, spot_at};
use crate::standing::reached_leader;
use argot_files::Place;
use argot_names_imports::{Found, Survey, found_at, import_at};
use argot_tree::Lexed;

// Nothing is found.
fn is_nothing(found: Found) -> bool
    ensures { result ≡ is_nothing found }
{
    match found {
        Found::Nothing => true,
        Found::Folder(_) => false,
        Found::Library(_) => false,
        Found::LeftOut => false,
    }
}

// Where the path of an import stands that finds nothing and is one of a package that is reached.
fn missing_at(survey: &Survey, lexed: &[Lexed], k: usize) -> Option<Place>
    requires imports { k < length survey.now.imports.items }
    requires founds { k < length survey.now.founds.items }
    ensures { (place : Byte) → IsMissingAt survey.now lexed.now k place ↔ IsAt result place }
{
    if !is_nothing(found_at(&survey.founds, k)) {
        return None;
    }
    let import = import_at(&survey.imports, k);
    match reached_leader(survey, import.file) {
        Some(_) => spot_at(lexed, import.file, import.path_at),
        None => None,
    }
}

/// The first path of an import of a package that is reached, which finds no package and isn't left out. No memory.
pub fn missing(survey: &Survey, lexed: &[Lexed]) -> Option<Place>
    requires { length survey.now.founds.items ≡ length survey.now.imports.items }
    ensures { (h : SourceFiles) (main : List ℕ) → h.lexed ≡ lexed.now → IsSurvey h main survey.now
        → IsLeast (FindsNone h main) result }
{
    let mut least = None;
    for k in 0..survey.imports.len() {
        least = sooner(least, missing_at(survey, lexed, k));
    }
    least
}
