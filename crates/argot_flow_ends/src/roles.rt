// What the places of a program are under a problem: sources, and calls of sinks.
ghost use Rattle.std.specs.Prelude.{◌≡◌, ◌<◌, ℕ, IfOk, length, true, false};
ghost use Rattle.argot_plain.specs.Counts.{counts};
ghost use Rattle.argot_plain.specs.Fitting.{Fits};
ghost use Rattle.argot_plain.specs.Lists.{In};
ghost use Rattle.argot_facts.specs.Marked.{IsSet};
ghost use Rattle.argot_roles.specs.Counting.{AreCounted, AreLeftOut};
ghost use Rattle.argot_flow_ends.specs.Roles.{AreRoles, HasFlagged};

use argot_facts::{Points, is_marked};
use argot_plain::{Problem, Program};
use argot_roles::{counted, left_out, named};
use argot_text::Memory;
use std::alloc::Global;

/// By place whether its call counts as nothing and whether it is a source place, and by function whether it counts as a source
/// and as a sink.
#[derive(Drop)]
pub(crate) struct Roles {
    pub left_out: Vec<bool>,
    pub sources: Vec<bool>,
    pub sinks: Vec<bool>,
    pub places: Vec<bool>,
}

/// The tables of a problem.
pub(crate) fn roles_of(alloc: Global, program: &Program, problem: &Problem) -> Result<Roles, Memory>
    requires { Fits program.now problem.now }
    ensures { IfOk result (AreRoles program.now problem.now) }
{
    let left_out = left_out(alloc, program)?;
    let sources = counted(alloc, program, problem.sources.as_slice())?;
    let sinks = counted(alloc, program, problem.sinks.as_slice())?;
    let places = named(alloc, problem.source_places.as_slice(), program.len())?;
    Ok(Roles {
        left_out,
        sources,
        sinks,
        places,
    })
}

/// Whether some target of the place has its flag set.
fn has_flagged(points: &Points, flags: &[bool], place: u32) -> bool
    ensures yes { result ≡ true → HasFlagged points.now flags.now place }
    ensures no { result ≡ false → HasFlagged points.now flags.now place → ⊥ }
{
    let targets = points.targets_of(place);
    for k in 0..targets.len() {
        if is_marked(flags, targets[k] as usize) {
            return true;
        }
    }
    false
}

/// Whether some target of the place counts so.
pub(crate) fn has_role(points: &Points, left_out: &[bool], flags: &[bool], place: u32) -> bool
    ensures yes { result ≡ true → (IsSet left_out.now place → ⊥) × HasFlagged points.now flags.now place }
    ensures no { result ≡ false → (IsSet left_out.now place → ⊥) → HasFlagged points.now flags.now place → ⊥ }
{
    !is_marked(left_out, place as usize) && has_flagged(points, flags, place)
}
