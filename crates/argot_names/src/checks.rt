// Which names of packages that are reached are declared again, or stand for nothing.
ghost use Rattle.std.specs.Prelude.{◌≡◌, ◌<◌, ◌-◌, ◌^◌, ℕ, List, None, length, IfErr, OnOk};
ghost use Rattle.argot_names_rules.specs.Files.{position_of};
ghost use Rattle.argot_names_rules.specs.Faults.{Refuses, IsNowhere, Again};
ghost use Rattle.argot_files.specs.Places.{place_of};
ghost use Rattle.argot_files.specs.Reading.{files_in};
ghost use Rattle.argot_names_imports.specs.Reads.{bytes_at};
ghost use Rattle.argot_names_tops.specs.Tops.{AreTops};
ghost use Rattle.argot_names.specs.Names.{AreShort, IsUnknownAt};

use argot_files::{Files, Place};
use argot_names_imports::{Reached, bytes_at};
use argot_names_packages::pos_at;
use argot_names_rules::NameFault;
use argot_names_tops::{Tops, redeclared};
use argot_text::Pos;
use std::alloc::Global;

/// The line and column of a place.
fn place_at(files: &Files, place: Place) -> Pos
    requires { AreShort files.now }
    ensures { result ≡ position_of (files_in files.now) (place_of place) }
{
    pos_at(bytes_at(files.sources, place.file), place)
}

/// The first name that is declared again is a fault.
pub fn check_again(
    alloc: Global,
    files: &Files,
    reached: &Reached,
    tops: &Tops,
) -> Result<(), NameFault>
    requires short { AreShort files.now }
    requires tops { (main : List ℕ) × AreTops (files_in files.now) main reached.now tops.now }
    ensures fault { (main : List ℕ) → AreTops (files_in files.now) main reached.now tops.now
        → IfErr result (Refuses (files_in files.now) main) }
    ensures fine { (main : List ℕ) → AreTops (files_in files.now) main reached.now tops.now
        → OnOk result (IsNowhere (files_in files.now) main Again) }
{
    match redeclared(alloc, reached, tops)? {
        Some(place) => Err(NameFault::Redeclared {
            at: place_at(files, place),
        }),
        None => Ok(()),
    }
}

/// The first name that stands for nothing is a fault.
pub fn check_known(files: &Files, unresolved: Option<Place>) -> Result<(), NameFault>
    requires { AreShort files.now }
    ensures fault { IfErr result (IsUnknownAt (files_in files.now) unresolved) }
    ensures fine { OnOk result (unresolved ≡ None) }
{
    match unresolved {
        Some(place) => Err(NameFault::Unresolved {
            at: place_at(files, place),
        }),
        None => Ok(()),
    }
}
