// Which nodes flows begin at and end in.
ghost use Rattle.std.specs.Prelude.{◌≡◌, ◌<◌, ℕ, IfSome, IsNone, length, true, false};
ghost use Rattle.argot_plain.specs.Nodes.{Mark};
ghost use Rattle.argot_facts.specs.Exact.{ArePoints};
ghost use Rattle.argot_facts.specs.Graphs.{IsMarked};
ghost use Rattle.argot_flow_ends.specs.Ends.{IsSourceNode, IsArgumentNode, IsNamed, IsGiven};
ghost use Rattle.argot_flow_ends.specs.Roles.{AreRoles, HasRole};

use crate::arguments::{argument_at, is_result};
use crate::roles::{Roles, has_role};
use argot_facts::{Node, Points, is_marked};
use argot_plain::{Problem, Program};

/// A program with its points-to, under a problem and its tables.
#[derive(Drop)]
pub(crate) struct Asked<'a> {
    pub program: &'a Program,
    pub points: &'a Points,
    pub problem: &'a Problem,
    pub roles: &'a Roles,
}

/// Whether a target of the place counts as a source.
fn has_source(asked: &Asked<'_>, place: u32) -> bool
    requires points { ArePoints asked.now.program.now asked.now.points.now }
    requires roles { AreRoles asked.now.program.now asked.now.problem.now asked.now.roles.now }
    requires inside { place < length asked.now.program.now.instrs }
    ensures yes { result ≡ true → HasRole asked.now.program.now asked.now.problem.now.sources place }
    ensures no { result ≡ false → HasRole asked.now.program.now asked.now.problem.now.sources place → ⊥ }
{
    has_role(
        asked.points,
        &asked.roles.left_out,
        &asked.roles.sources,
        place,
    )
}

/// Whether a target of the place counts as a sink.
fn has_sink(asked: &Asked<'_>, place: u32) -> bool
    requires points { ArePoints asked.now.program.now asked.now.points.now }
    requires roles { AreRoles asked.now.program.now asked.now.problem.now asked.now.roles.now }
    requires inside { place < length asked.now.program.now.instrs }
    ensures yes { result ≡ true → HasRole asked.now.program.now asked.now.problem.now.sinks place }
    ensures no { result ≡ false → HasRole asked.now.program.now asked.now.problem.now.sinks place → ⊥ }
{
    has_role(
        asked.points,
        &asked.roles.left_out,
        &asked.roles.sinks,
        place,
    )
}

/// Whether the node is the result of a Read or Move that is a source.
fn is_named(asked: &Asked<'_>, node: Node) -> bool
    requires points { ArePoints asked.now.program.now asked.now.points.now }
    requires roles { AreRoles asked.now.program.now asked.now.problem.now asked.now.roles.now }
    requires inside { node.place < length asked.now.program.now.instrs }
    ensures yes { result ≡ true → IsNamed asked.now.problem.now node }
    ensures no { result ≡ false → IsNamed asked.now.problem.now node → ⊥ }
{
    node.index == 0 && is_marked(&asked.roles.places, node.place as usize)
}

/// Whether the node is a result of a Call of a source.
fn is_given(asked: &Asked<'_>, node: Node) -> bool
    requires points { ArePoints asked.now.program.now asked.now.points.now }
    requires roles { AreRoles asked.now.program.now asked.now.problem.now asked.now.roles.now }
    requires inside { node.place < length asked.now.program.now.instrs }
    ensures yes { result ≡ true → IsGiven asked.now.program.now asked.now.problem.now node }
    ensures no { result ≡ false → IsGiven asked.now.program.now asked.now.problem.now node → ⊥ }
{
    is_result(asked.program.kind(node.place as usize), node.index) && has_source(asked, node.place)
}

/// Whether the node is one of a source place.
pub(crate) fn is_source(asked: &Asked<'_>, node: Node) -> bool
    requires points { ArePoints asked.now.program.now asked.now.points.now }
    requires roles { AreRoles asked.now.program.now asked.now.problem.now asked.now.roles.now }
    requires inside { node.place < length asked.now.program.now.instrs }
    requires marked { (m : Mark) × IsMarked asked.now.program.now node m }
    ensures yes { result ≡ true → IsSourceNode asked.now.program.now asked.now.problem.now node }
    ensures no { result ≡ false → IsSourceNode asked.now.program.now asked.now.problem.now node → ⊥ }
{
    is_named(asked, node) || is_given(asked, node)
}

/// Of which argument of a sink the node is one; none where it is of no such argument.
pub(crate) fn argument_of(asked: &Asked<'_>, node: Node) -> Option<u32>
    requires points { ArePoints asked.now.program.now asked.now.points.now }
    requires roles { AreRoles asked.now.program.now asked.now.problem.now asked.now.roles.now }
    requires inside { node.place < length asked.now.program.now.instrs }
    requires marked { (m : Mark) × IsMarked asked.now.program.now node m }
    ensures some { IfSome result (IsArgumentNode asked.now.program.now asked.now.problem.now node) }
    ensures none { IsNone result → (k : ℕ) → IsArgumentNode asked.now.program.now asked.now.problem.now node k → ⊥ }
{
    if !has_sink(asked, node.place) {
        return None;
    }
    argument_at(asked.program.kind(node.place as usize), node.index)
}
