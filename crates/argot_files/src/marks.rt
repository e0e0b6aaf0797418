// Nodes that have a child of a kind that is wanted.
ghost use Rattle.std.specs.Prelude.{◌≡◌, ◌+◌, ◌<◌, length, IfOk};
ghost use Rattle.argot_files.specs.Marks.{passes, AreMarks, AreMarksUpTo};
ghost use Rattle.argot_files.specs.Parents.{AreParents};

use crate::tables::{entry_at, node_at};
use argot_text::Memory;
use argot_tree::{NodeKind, TreeNode};
use std::alloc::Global;

/// Which children are wanted.
#[derive(Clone, Copy, Debug, PartialEq, Eq)]
pub enum Wanted {
    /// Lists of parameters.
    Parameters,
    TypeParameters,
}

/// Whether a node of this kind is wanted.
fn passes(wanted: Wanted, kind: NodeKind) -> bool
    ensures { result ≡ passes wanted kind }
{
    match wanted {
        Wanted::Parameters => matches!(kind, NodeKind::Params | NodeKind::NamedParams),
        Wanted::TypeParameters => matches!(kind, NodeKind::TypeParams),
    }
}

/// Marks the parent of node c where the node is wanted.
fn mark(
    nodes: &[TreeNode],
    parents: &[Option<usize>],
    wanted: Wanted,
    c: usize,
    marks: &mut Vec<bool>,
)
    requires parents { AreParents nodes.now parents.now }
    requires node { c < length nodes.now }
    requires so_far { AreMarksUpTo nodes.now wanted c marks.old.items }
    ensures { AreMarksUpTo nodes.now wanted (c + 1) marks.new.items }
{
    if passes(wanted, node_at(nodes, c).kind) {
        if let Some(p) = entry_at(parents, c) {
            marks[p] = true;
        }
    }
}

/// For each node whether it has a child that is wanted.
pub fn marks_of(
    alloc: Global,
    nodes: &[TreeNode],
    parents: &[Option<usize>],
    wanted: Wanted,
) -> Result<Vec<bool>, Memory>
    requires { AreParents nodes.now parents.now }
    ensures { IfOk result (λ v. AreMarks nodes.now wanted v.items) }
{
    let mut marks = vec![in alloc; false; nodes.len()]?;
    for c in 0..nodes.len() {
        mark(nodes, parents, wanted, c, &mut marks);
    }
    Ok(marks)
}
