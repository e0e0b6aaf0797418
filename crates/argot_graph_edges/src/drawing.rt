// What edges are drawn from, and edges between nodes.
ghost use Rattle.std.specs.Prelude.{◌≡◌, ◌≤◌, ◌<◌, ℕ, Some, true, length, slice_get, OnOk, IfSome, IsNone};
ghost use Rattle.argot_graph_edges.specs.Adding.{Adds};
ghost use Rattle.argot_graph_edges.specs.Rows.{IsNumberedAs, Just};

use crate::sketch::{Sketch, add};
use crate::tables::Tables;
use argot_facts::{Edge, EdgeKind, Node, Nodes, Points};
use argot_plain::{Problem, Program};
use argot_text::Memory;
use std::alloc::Global;

/// A program, what its references refer to, and what counts as what under the problem.
#[derive(Drop)]
pub(crate) struct Drawing<'a> {
    pub alloc: Global,
    pub program: &'a Program,
    pub points: &'a Points,
    pub problem: &'a Problem,
    pub tables: &'a Tables,
}

/// Whether the node stands there.
fn is_at(nodes: &[Node], n: usize, node: Node) -> bool
    requires { n < length nodes.now }
    ensures yes { result ≡ true → slice_get nodes.now n ≡ Some node }
    ensures no { slice_get nodes.now n ≡ Some node → result ≡ true }
{
    nodes[n] == node
}

/// The number of a node.
pub(crate) fn number(nodes: &Nodes, node: Node) -> Option<u32>
    requires few { length nodes.now ≤ 262144 }
    ensures some { IfSome result (λ n. slice_get nodes.now n ≡ Some node) }
    ensures only { IfSome result (λ n. (m : ℕ) → slice_get nodes.now m ≡ Some node → m ≡ n) }
    ensures none { IsNone result → (m : ℕ) → slice_get nodes.now m ≡ Some node → ⊥ }
{
    let first = nodes.first_from(node);
    let list = nodes.as_slice();
    if first >= list.len() {
        return None;
    }
    if is_at(list, first, node) {
        return Some(first as u32);
    }
    None
}

/// Adds an edge, where both ends are nodes.
pub(crate) fn draw(
    drawing: &Drawing<'_>,
    sketch: &mut Sketch,
    from: Node,
    kind: EdgeKind,
    to: Node,
) -> Result<(), Memory>
    ensures { OnOk result (Adds (IsNumberedAs drawing.now.points.now.nodes (Just from kind to)) sketch.old sketch.new) }
{
    let nodes = drawing.points.nodes();
    let Some(from) = number(nodes, from) else {
        return Ok(());
    };
    let Some(to) = number(nodes, to) else {
        return Ok(());
    };
    add(drawing.alloc, sketch, Edge { from, to, kind })
}
