// All that is left out in one file.
ghost use Rattle.std.specs.Prelude.{◌≡◌, OnOk, IfOk};
ghost use Rattle.argot_names_rules.specs.Lists.{IsListOf, IsOrdered};
ghost use Rattle.argot_names_subset_file.specs.Spots.{Adds, IsSpotted, IsSpotBefore};
ghost use Rattle.argot_names_subset_file.specs.Files.{IsInFile};

use crate::comments::{note_directives, note_imports};
use crate::notes::note_nodes;
use crate::spots::Spot;
use crate::view::View;
use argot_text::Memory;
use std::alloc::Global;
use std::collections::BTreeSet;

/// Adds all that is left out in a file. `directives` has the offsets of its comments for the compiler.
pub fn note_file(
    alloc: Global,
    spots: &mut BTreeSet<Spot>,
    view: &View,
    directives: &[u32],
) -> Result<(), Memory>
    ensures { OnOk result (Adds (IsInFile view.now directives.now) spots.old.keys spots.new.keys) }
{
    note_imports(alloc, spots, view)?;
    note_directives(spots, view.file.bytes(), view.number, directives)?;
    note_nodes(spots, view)
}

/// The spots as a list, in their order.
pub fn listed(alloc: Global, spots: &BTreeSet<Spot>) -> Result<Vec<Spot>, Memory>
    ensures items { IfOk result (λ v. v.items ≡ spots.now.keys) }
    ensures ordered { IfOk result (λ v. IsOrdered IsSpotBefore v.items) }
{
    let list = spots.iter().copied().collect(alloc)?;
    Ok(list)
}

/// All that is left out in a file, each feature at each place once, by place and then in the order of features.
/// `directives` has the offsets of its comments for the compiler.
pub fn spots_of(alloc: Global, view: &View, directives: &[u32]) -> Result<Vec<Spot>, Memory>
    ensures { IfOk result (λ v. IsListOf IsSpotBefore (IsSpotted (IsInFile view.now directives.now)) v.items) }
{
    let mut spots = BTreeSet::new(alloc);
    note_file(alloc, &mut spots, view, directives)?;
    listed(alloc, &spots)
}
