// Children that a node has at most once.
ghost use Rattle.std.specs.Prelude.{◌≡◌, ◌+◌, ◌<◌, length, IfOk};
ghost use Rattle.argot_files.specs.Forms.{IsFormed};
ghost use Rattle.argot_files.specs.Keys.{key_of, fits, AreKeys, AreKeysUpTo};
ghost use Rattle.argot_files.specs.Parents.{AreParents};

use crate::tables::{entry_at, node_at};
use argot_text::Memory;
use argot_tree::{NodeKind, TreeNode};
use std::alloc::Global;

/// The child of a node that is looked for by itself.
#[derive(Clone, Copy, Debug, PartialEq, Eq)]
pub enum Key {
    /// None.
    Nothing,
    /// The body of a function or of a `range` clause.
    Body,
    /// The head of a type switch that gives a name.
    Guard,
    /// That name.
    Name,
    /// The values of a case.
    Values,
}

/// Which child is looked for in a node of this kind.
pub fn key_of(kind: NodeKind) -> Key
    ensures { result ≡ key_of kind }
{
    match kind {
        NodeKind::FuncDecl | NodeKind::FuncLiteral | NodeKind::DefineRange => Key::Body,
        NodeKind::TypeSwitch => Key::Guard,
        NodeKind::NamedGuard => Key::Name,
        NodeKind::Case => Key::Values,
        _ => Key::Nothing,
    }
}

/// Whether a child of this kind is the one.
pub fn fits(key: Key, kind: NodeKind) -> bool
    ensures { result ≡ fits key kind }
{
    match key {
        Key::Nothing => false,
        Key::Body => kind == NodeKind::Block,
        Key::Guard => kind == NodeKind::NamedGuard,
        Key::Name => kind == NodeKind::DeclName,
        Key::Values => kind == NodeKind::Values,
    }
}

/// Whether the one node, as a child of the other, is the one that is looked for.
fn is_key(above: TreeNode, below: TreeNode) -> bool
    ensures { result ≡ fits (key_of above.kind) below.kind }
{
    fits(key_of(above.kind), below.kind)
}

/// Puts node c into the table where it is the one that is looked for in its parent.
fn note_key(nodes: &[TreeNode], parents: &[Option<usize>], c: usize, keys: &mut Vec<Option<usize>>)
    requires formed { IsFormed nodes.now }
    requires parents { AreParents nodes.now parents.now }
    requires node { c < length nodes.now }
    requires so_far { AreKeysUpTo nodes.now c keys.old.items }
    ensures { AreKeysUpTo nodes.now (c + 1) keys.new.items }
{
    if let Some(p) = entry_at(parents, c) {
        if is_key(node_at(nodes, p), node_at(nodes, c)) {
            keys[p] = Some(c);
        }
    }
}

/// For each node its child that is looked for, by the number of the node.
pub fn key_children(
    alloc: Global,
    nodes: &[TreeNode],
    parents: &[Option<usize>],
) -> Result<Vec<Option<usize>>, Memory>
    requires formed { IsFormed nodes.now }
    requires parents { AreParents nodes.now parents.now }
    ensures { IfOk result (λ v. AreKeys nodes.now v.items) }
{
    let mut keys = vec![in alloc; None; nodes.len()]?;
    for c in 0..nodes.len() {
        note_key(nodes, parents, c, &mut keys);
    }
    Ok(keys)
}
