// What is left out at the nodes of one file, added to the spots.
ghost use Rattle.std.specs.Prelude.{◌≡◌, Some, OnOk};
ghost use Rattle.argot_answers.specs.Answers.{Exactly};
ghost use Rattle.argot_names_subset_file.specs.Spots.{Adds};
ghost use Rattle.argot_names_subset_file.specs.Files.{IsBodilessIn, IsGiven, IsPartIn, IsAtSome};

use crate::names::{method_at, named_at};
use crate::parts::{Part, dot_at, number_at, plain_at};
use crate::receivers::bodiless_at;
use crate::spots::{Spot, note};
use crate::view::View;
use argot_text::Memory;
use std::collections::BTreeSet;

/// Adds a part at the first byte of its token, where there is one.
pub fn note_part(spots: &mut BTreeSet<Spot>, view: &View, part: Option<Part>) -> Result<(), Memory>
    ensures { OnOk result (Adds (IsGiven view.now part) spots.old.keys spots.new.keys) }
{
    let Some(part) = part else {
        return Ok(());
    };
    let Some(token) = view.file.token(part.token) else {
        return Ok(());
    };
    note(spots, part.feature, view.number, token.start)
}

/// The name of a function without a body, where the file's package has a path.
fn bodiless_in(view: &View, k: usize) -> Option<Part>
    ensures { Exactly (IsBodilessIn view.now k) result }
{
    match view.path {
        Some(path) => bodiless_at(view, path, k),
        None => None,
    }
}

/// Adds what is left out at node k.
fn note_node(spots: &mut BTreeSet<Spot>, view: &View, k: usize) -> Result<(), Memory>
    ensures { OnOk result (Adds (IsPartIn view.now k) spots.old.keys spots.new.keys) }
{
    note_part(spots, view, dot_at(view.file, k))?;
    note_part(spots, view, plain_at(view.file, k))?;
    note_part(spots, view, number_at(view.file, k))?;
    note_part(spots, view, named_at(view, k))?;
    note_part(spots, view, method_at(view, k))?;
    note_part(spots, view, bodiless_in(view, k))
}

/// Adds what is left out at the nodes of a file.
pub fn note_nodes(spots: &mut BTreeSet<Spot>, view: &View) -> Result<(), Memory>
    ensures { OnOk result (Adds (IsAtSome view.now) spots.old.keys spots.new.keys) }
{
    for k in 0..view.file.len() {
        note_node(spots, view, k)?;
    }
    Ok(())
}
