// Declarations with type parameters, and imports under a dot.
ghost use Rattle.std.specs.Prelude.{◌≡◌, ◌+◌, ◌<◌, ◌&&◌, length, slice_get, IfOk};
ghost use Rattle.argot_names_rules.specs.Uses.{may_be_generic};
ghost use Rattle.argot_names_blocks.specs.Generics.{BeginBefore, PaintsTrue, is_true, dot_at, is_dot_of};
ghost use Rattle.argot_names_blocks.specs.Listing.{AreGenerics, AreGenericsUpTo, TellsDot};
ghost use Rattle.argot_files.specs.Marks.{AreMarks};
ghost use Rattle.argot_names_blocks.specs.Roles.{role_of};
ghost use Rattle.argot_files.specs.declared.marks.Wanted.TheVariants.{TypeParameters};

use crate::binding::linked;
use crate::roles::{Role, role_of};
use crate::tables::{Found, found_at, node_at};
use argot_text::Memory;
use argot_tree::{NodeKind, TreeNode};
use std::alloc::Global;

/// Marks the tokens from one to another.
fn paint_true(table: &mut [bool], from: u32, to: u32)
    ensures { PaintsTrue table.old table.new from to }
{
    let end = table.len().min(to as usize + 1);
    for token in from as usize..end {
        table[token] = true;
    }
}

/// A number beyond all tokens at which nodes begin.
pub fn count_tokens(nodes: &[TreeNode]) -> usize
    ensures { BeginBefore nodes.now result }
{
    let mut count = 0;
    for node in nodes {
        count = count.max(node.token as usize + 1);
    }
    count
}

/// Whether declarations of this kind may have type parameters.
fn may_be_generic(kind: NodeKind) -> bool
    ensures { result ≡ may_be_generic kind }
{
    matches!(
        kind,
        NodeKind::FuncDecl | NodeKind::TypeSpec | NodeKind::AliasSpec
    )
}

/// Whether the node has a mark.
fn is_marked(marks: &[bool], k: usize) -> bool
    ensures { result ≡ is_true (slice_get marks.now k) }
{
    match marks.get(k) {
        Some(marked) => *marked,
        None => false,
    }
}

/// Whether node k of this kind is a declaration with type parameters.
fn is_generic(marks: &[bool], k: usize, kind: NodeKind) -> bool
    ensures { result ≡ (may_be_generic kind && is_true (slice_get marks.now k)) }
{
    may_be_generic(kind) && is_marked(marks, k)
}

/// Marks the tokens of node k where it is a declaration with type parameters.
fn cover(nodes: &[TreeNode], marks: &[bool], k: usize, table: &mut [bool])
    requires marks { AreMarks nodes.now TypeParameters marks.now }
    requires node { k < length nodes.now }
    requires so_far { AreGenericsUpTo nodes.now k table.old }
    ensures long { length table.new ≡ length table.old }
    ensures more { AreGenericsUpTo nodes.now (k + 1) table.new }
{
    let node = node_at(nodes, k);
    if is_generic(marks, k, node.kind) {
        paint_true(table, node.token, node.last);
    }
}

/// For each of `count` tokens whether it stands in a declaration with type parameters. `marks` has the nodes with such.
pub fn generics_of(
    alloc: Global,
    nodes: &[TreeNode],
    marks: &[bool],
    count: usize,
) -> Result<Vec<bool>, Memory>
    requires { AreMarks nodes.now TypeParameters marks.now }
    ensures long { IfOk result (λ v. length v.items ≡ count) }
    ensures each { IfOk result (λ v. AreGenerics nodes.now v.items) }
{
    let mut table = vec![in alloc; false; count]?;
    for k in 0..nodes.len() {
        cover(nodes, marks, k, table.as_mut_slice());
    }
    Ok(table)
}

/// Whether the found node is the text of a path.
fn dot_at(found: Option<Found>) -> bool
    ensures { result ≡ dot_at found }
{
    match found {
        Some(path) => match role_of(path.node.kind) {
            Role::Path => true,
            _ => false,
        },
        None => false,
    }
}

/// Whether node k imports a package under a dot.
fn is_dot(nodes: &[TreeNode], k: usize) -> bool
    ensures { result ≡ is_dot_of nodes.now k }
{
    match nodes.get(k) {
        Some(node) => match role_of(node.kind) {
            Role::DotImport => dot_at(found_at(nodes, linked(node.first))),
            _ => false,
        },
        None => false,
    }
}

/// Whether a node imports a package under a dot.
pub fn has_dot(nodes: &[TreeNode]) -> bool
    ensures { TellsDot nodes.now result }
{
    for k in 0..nodes.len() {
        if is_dot(nodes, k) {
            return true;
        }
    }
    false
}
