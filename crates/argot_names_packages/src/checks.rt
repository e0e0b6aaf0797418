// The faults of packages and imports in their order, each at its first place.
ghost use Rattle.std.specs.Prelude.{◌≡◌, ◌<◌, ◌^◌, ◌-◌, ℕ, List, IfErr, OnOk, length};
ghost use Rattle.argot_tree.specs.declared.lexed.Lexed.{Lexed};
ghost use Rattle.argot_tree.specs.declared.tree.Tree.{Tree};
ghost use Rattle.argot_names_rules.specs.Files.{position_of};
ghost use Rattle.argot_names_rules.specs.Agreeing.{Agrees};
ghost use Rattle.argot_names_rules.specs.Faults.{HasMain, SecondName, Missing, Cycle, IsNowhere, Refuses};
ghost use Rattle.argot_files.specs.Reading.{files_in};
ghost use Rattle.argot_names_imports.specs.Reads.{handed, bytes_at};
ghost use Rattle.argot_names_imports.specs.Surveyed.{IsSurvey};
ghost use Rattle.argot_files.specs.Places.{place_of};
ghost use Rattle.argot_names_packages.specs.Sound.{IsSound};

use crate::{cycle, has_main, missing, pos_at, second_name};
use argot_files::{Files, Place};
use argot_names_imports::{Survey, bytes_at};
use argot_names_rules::NameFault;
use argot_text::{Pos, Sources};
use argot_tree::{Lexed, Tree};
use std::alloc::Global;

// The line and column of a byte.
fn position(files: &Files, spot: Place) -> Pos
    requires { length (bytes_at files.now.sources.now spot.file) < 2 ^ 32 - 1 }
    ensures { result ≡ position_of (files_in files.now) (place_of spot) }
{
    pos_at(bytes_at(files.sources, spot.file), spot)
}

// There is a main function.
fn check_main(alloc: Global, survey: &Survey, files: &Files) -> Result<(), NameFault>
    requires agrees { Agrees (files_in files.now) }
    requires survey { (main : List ℕ) × IsSurvey (files_in files.now) main survey.now }
    ensures fault { (main : List ℕ) → IsSurvey (files_in files.now) main survey.now
        → IfErr result (Refuses (files_in files.now) main) }
    ensures fine { (main : List ℕ) → IsSurvey (files_in files.now) main survey.now
        → OnOk result (HasMain (files_in files.now) main) }
{
    if has_main(alloc, survey, files)? {
        Ok(())
    } else {
        Err(NameFault::NoMain)
    }
}

// Each folder has one package name.
fn check_names(survey: &Survey, files: &Files) -> Result<(), NameFault>
    requires agrees { Agrees (files_in files.now) }
    ensures fault { (main : List ℕ) → IsSurvey (files_in files.now) main survey.now
        → HasMain (files_in files.now) main → IfErr result (Refuses (files_in files.now) main) }
    ensures fine { (main : List ℕ) → IsSurvey (files_in files.now) main survey.now
        → OnOk result (IsNowhere (files_in files.now) main SecondName) }
{
    match second_name(survey, files)? {
        Some(spot) => Err(NameFault::TwoNames {
            at: position(files, spot),
        }),
        None => Ok(()),
    }
}

// Each import finds a package.
fn check_imports(survey: &Survey, files: &Files) -> Result<(), NameFault>
    requires agrees { Agrees (files_in files.now) }
    requires as_many { length survey.now.founds.items ≡ length survey.now.imports.items }
    ensures fault { (main : List ℕ) → IsSurvey (files_in files.now) main survey.now
        → HasMain (files_in files.now) main → IsNowhere (files_in files.now) main SecondName
        → IfErr result (Refuses (files_in files.now) main) }
    ensures fine { (main : List ℕ) → IsSurvey (files_in files.now) main survey.now
        → OnOk result (IsNowhere (files_in files.now) main Missing) }
{
    match missing(survey, files.lexed) {
        Some(spot) => Err(NameFault::NoPackage {
            at: position(files, spot),
        }),
        None => Ok(()),
    }
}

// No import is on a cycle.
fn check_cycles(alloc: Global, survey: &Survey, files: &Files) -> Result<(), NameFault>
    requires agrees { Agrees (files_in files.now) }
    requires survey { (main : List ℕ) × IsSurvey (files_in files.now) main survey.now }
    ensures fault { (main : List ℕ) → IsSurvey (files_in files.now) main survey.now
        → HasMain (files_in files.now) main → IsNowhere (files_in files.now) main SecondName
        → IsNowhere (files_in files.now) main Missing → IfErr result (Refuses (files_in files.now) main) }
    ensures fine { (main : List ℕ) → IsSurvey (files_in files.now) main survey.now
        → OnOk result (IsNowhere (files_in files.now) main Cycle) }
{
    match cycle(alloc, survey, files.lexed)? {
        Some(spot) => Err(NameFault::ImportCycle {
            at: position(files, spot),
        }),
        None => Ok(()),
    }
}

/// Nothing is wrong with the packages that are reached; else what is, and where it is first.
pub fn check(alloc: Global, survey: &Survey, files: &Files) -> Result<(), NameFault>
    requires agrees { Agrees (files_in files.now) }
    requires survey { (main : List ℕ) × IsSurvey (files_in files.now) main survey.now }
    ensures fault { (main : List ℕ) → IsSurvey (files_in files.now) main survey.now
        → IfErr result (Refuses (files_in files.now) main) }
    ensures fine { (main : List ℕ) → IsSurvey (files_in files.now) main survey.now
        → OnOk result (IsSound (files_in files.now) main) }
{
    check_main(alloc, survey, files)?;
    check_names(survey, files)?;
    check_imports(survey, files)?;
    check_cycles(alloc, survey, files)
}
