// The first package clause that differs from that of its package's first file.
ghost use Rattle.std.specs.Prelude.{◌≡◌, ◌<◌, ◌↔◌, List, ℕ, option_map, IfOk};
ghost use Rattle.argot_names_rules.specs.Files.{Place as Byte};
ghost use Rattle.argot_names_rules.specs.Faults.{IsSecondName};
ghost use Rattle.argot_files.specs.Reading.{files_in};
ghost use Rattle.argot_names_imports.specs.Reads.{handed};
ghost use Rattle.argot_names_imports.specs.Surveyed.{IsSurvey};
ghost use Rattle.argot_names_packages.specs.Spots.{IsAt, IsLeast};
ghost use Rattle.argot_names_packages.specs.Second.{IsSecondAt, differing};

use crate::clause::clause_name;
use crate::spot::{sooner, spot_at};
use crate::standing::reached_leader;
use argot_files::{Files, Place};
use argot_names_imports::Survey;
use argot_text::{Memory, Sources};
use argot_tree::{Lexed, Tree};

// Two names are there, and they differ.
fn differ(name: Option<&[u8]>, other: Option<&[u8]>) -> bool
    ensures { result ≡ differing (option_map (λ r. r.now) name.entry) (option_map (λ r. r.now) other.entry) }
{
    match (name, other) {
        (Some(name), Some(other)) => name != other,
        _ => false,
    }
}

// Where a file begins whose package is reached and has another name.
fn second_at(survey: &Survey, files: &Files, file: u32) -> Option<Place>
    ensures { (place : Byte) → IsSecondAt survey.now (files_in files.now) file place ↔ IsAt result place }
{
    let Some(first) = reached_leader(survey, file) else {
        return None;
    };
    let name = clause_name(files, first);
    if differ(name, clause_name(files, file)) {
        spot_at(files.lexed, file, 0)
    } else {
        None
    }
}

/// The first token of the first file whose package clause differs from that of its package's first file, among the packages
/// that are reached.
pub fn second_name(survey: &Survey, files: &Files) -> Result<Option<Place>, Memory>
    ensures { (main : List ℕ) → IsSurvey (files_in files.now) main survey.now
        → IfOk result (IsLeast (IsSecondName (files_in files.now) main)) }
{
    let Ok(count) = u32::try_from(survey.leaders.len()) else {
        return Err(Memory);
    };
    let mut least = None;
    for file in 0..count {
        least = sooner(least, second_at(survey, files, file));
    }
    Ok(least)
}
