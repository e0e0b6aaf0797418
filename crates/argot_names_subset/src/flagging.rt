// All that is left out of a loaded program.
ghost use Rattle.std.specs.Prelude.{◌≡◌, ◌<◌, ◌^◌, ◌-◌, ℕ, List, Bool, length, IfOk};
ghost use Rattle.argot_typed.specs.declared.program.Use.{Use};
ghost use Rattle.argot_names_rules.specs.Lists.{In, IsListOf, IsOrdered};
ghost use Rattle.argot_names_rules.specs.Agreeing.{Agrees};
ghost use Rattle.argot_names_rules.specs.Subset.{HasFeature, AreFlags};
ghost use Rattle.argot_names_rules.specs.Loaded.{count_nodes, IsLoaded};
ghost use Rattle.argot_names_imports.specs.Reads.{bytes_at};
ghost use Rattle.argot_files.specs.Reading.{files_in};
ghost use Rattle.argot_names_subset_file.specs.Spots.{IsSpotted, IsSpotBefore};
ghost use Rattle.argot_names_subset_file.specs.Standings.{AreStandings};
ghost use Rattle.argot_names_subset_file.specs.Tables.{AreTypes, AreLinked};
ghost use Rattle.argot_names_subset.specs.Known.{handed_of, IsKnown};
ghost use Rattle.argot_names_subset.specs.Meanings.{AreTables};

use crate::folders::folders_of;
use crate::known::Known;
use crate::others::note_others;
use crate::packages::note_packages;
use crate::positions::flags_of;
use argot_files::Files;
use argot_names_rules::Flag;
use argot_names_subset_file::{
    Spot, Standings, bases_of, entry_table, listed, standings_of, types_of,
};
use argot_text::Memory;
use argot_tree::{Entries, Tree};
use argot_typed::Packages;
use std::alloc::Global;
use std::collections::BTreeSet;

/// What the nodes of all trees stand for.
fn standings_in(alloc: Global, packages: &Packages, trees: &[Tree]) -> Result<Standings, Memory>
    requires linked { AreLinked trees.now }
    requires ordered { IsOrdered (λ (a b : Use). a.node < b.node) packages.now.uses }
    requires within { (use_ : Use) → In use_ packages.now.uses → use_.node < count_nodes trees.now }
    ensures { IfOk result (λ s. (types : List Bool) × AreTypes trees.now types
        × AreStandings packages.now.uses packages.now.decls types s) }
{
    let types = types_of(alloc, trees)?;
    let uses = packages.uses.as_slice();
    let decls = packages.decls.as_slice();
    let marks = types.as_slice();
    standings_of(alloc, marks.len(), uses, decls, marks)
}

/// All that is left out, each feature at each place once, by place and then in the order of features.
fn spots_in(alloc: Global, known: &Known, packages: &Packages) -> Result<Vec<Spot>, Memory>
    requires known { IsKnown known.now }
    requires short { (file : ℕ) → length (bytes_at known.now.files.sources.now file) < 2 ^ 32 - 1 }
    ensures { (main : List ℕ) → (is : IsLoaded (handed_of known.now) main packages.now)
        → AreTables (handed_of known.now) is.homes known.now.named.now known.now.typed.now
        → IfOk result (λ v. IsListOf IsSpotBefore (IsSpotted (HasFeature
        (handed_of known.now) main known.now.entries.now)) v.items) }
{
    let packages = packages.packages.as_slice();
    let folders = folders_of(alloc, known.files.sources, packages)?;
    let mut spots = BTreeSet::new(alloc);
    note_packages(alloc, &mut spots, known, packages)?;
    note_others(&mut spots, known.files.sources, &folders)?;
    listed(alloc, &spots)
}

/// All that the subset of the language leaves out of a program, each feature at each place once, by place and then in the
/// order of features: in the files of the packages that are reached, assembly files in their folders, and a `go` line of
/// the module that names 1.22 or later. `entries` stand for functions without bodies.
pub fn flags(
    alloc: Global,
    packages: &Packages,
    files: &Files,
    entries: &Entries,
) -> Result<Vec<Flag>, Memory>
    requires agrees { Agrees (files_in files.now) }
    requires loaded { (main : List ℕ) × IsLoaded (files_in files.now) main packages.now }
    ensures { (main : List ℕ) → IsLoaded (files_in files.now) main packages.now
        → IfOk result (λ v. AreFlags (files_in files.now) main entries.now v.items) }
{
    let bases = bases_of(alloc, files.trees)?;
    let standings = standings_in(alloc, packages, files.trees)?;
    let table = entry_table(alloc, entries.as_slice())?;
    let known = Known {
        files: *files,
        entries: &table,
        bases: bases.as_slice(),
        named: standings.named.as_slice(),
        typed: standings.typed.as_slice(),
    };
    let spots = spots_in(alloc, &known, packages)?;
    flags_of(alloc, files.sources, &spots)
}
