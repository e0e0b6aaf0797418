// Names that one node looks up.
ghost use Rattle.std.specs.Prelude.{◌≡◌};
ghost use Rattle.argot_names_blocks.specs.Looking.{stmt_defines, above_defines, unless, looked_of, operand_at, selector_at, dotted_of, is_link, keyed_at, is_key_of};
ghost use Rattle.argot_names_blocks.specs.Roles.{role_of};

use crate::binding::linked;
use crate::roles::{Role, role_of};
use crate::tables::{Found, found_at, found_in};
use argot_tree::TreeNode;

/// A lone name before a dot and another name: the token of the one, that of the other, and the node that has the member.
#[derive(Clone, Copy, Debug, PartialEq, Eq)]
pub struct QualifiedName {
    pub token: u32,
    pub member: usize,
    pub node: usize,
}

/// Whether the names on the left in this statement are declared by its `:=`.
fn stmt_defines(found: Option<Found>) -> bool
    ensures { result ≡ stmt_defines found }
{
    match found {
        Some(stmt) => match role_of(stmt.node.kind) {
            Role::RangeDefine | Role::ReceiveDefine => true,
            _ => false,
        },
        None => false,
    }
}

/// Whether the names in this list are declared by a `:=`.
fn above_defines(nodes: &[TreeNode], parents: &[Option<usize>], found: Option<Found>) -> bool
    ensures { result ≡ above_defines nodes.now parents.now found }
{
    match found {
        Some(list) => match role_of(list.node.kind) {
            Role::Expressions => stmt_defines(found_in(nodes, parents, list.at)),
            _ => false,
        },
        None => false,
    }
}

/// The token, unless the name is declared there.
fn unless(defined: bool, token: u32) -> Option<u32>
    ensures { result ≡ unless defined token }
{
    if defined { None } else { Some(token) }
}

/// The token at which node k is looked up, where it is.
pub fn looked_at(nodes: &[TreeNode], parents: &[Option<usize>], k: usize) -> Option<u32>
    ensures { result ≡ looked_of nodes.now parents.now k }
{
    match nodes.get(k) {
        Some(node) => match role_of(node.kind) {
            Role::Used => unless(
                above_defines(nodes, parents, found_in(nodes, parents, k)),
                node.token,
            ),
            Role::Typed | Role::Qualified => Some(node.token),
            _ => None,
        },
        None => None,
    }
}

/// A name behind a dot, by the operand before it.
fn operand_at(k: usize, token: u32, found: Option<Found>) -> Option<QualifiedName>
    ensures { result ≡ operand_at k token found }
{
    match found {
        Some(operand) => match role_of(operand.node.kind) {
            Role::Used => Some(QualifiedName {
                token: operand.node.token,
                member: token as usize,
                node: k,
            }),
            _ => None,
        },
        None => None,
    }
}

/// A name behind a dot, by the node above it.
fn selector_at(
    nodes: &[TreeNode],
    k: usize,
    token: u32,
    found: Option<Found>,
) -> Option<QualifiedName>
    ensures { result ≡ selector_at nodes.now k token found }
{
    match found {
        Some(above) => match role_of(above.node.kind) {
            Role::Selector => operand_at(k, token, found_at(nodes, linked(above.node.first))),
            _ => None,
        },
        None => None,
    }
}

/// The names around a dot, where node k is the member.
pub fn member_at(nodes: &[TreeNode], parents: &[Option<usize>], k: usize) -> Option<QualifiedName>
    ensures { result ≡ dotted_of nodes.now parents.now k }
{
    match nodes.get(k) {
        Some(node) => match role_of(node.kind) {
            Role::Selected => selector_at(nodes, k, node.token, found_in(nodes, parents, k)),
            Role::Qualified => Some(QualifiedName {
                token: node.token,
                member: node.token as usize + 2,
                node: k,
            }),
            _ => None,
        },
        None => None,
    }
}

/// Whether the link leads to node k.
fn is_link(link: Option<u32>, k: usize) -> bool
    ensures { result ≡ is_link link k }
{
    match link {
        Some(at) => at as usize == k,
        None => false,
    }
}

/// Whether node k is the first child of an item with a key, by the node above it.
fn keyed_at(k: usize, found: Option<Found>) -> bool
    ensures { result ≡ keyed_at k found }
{
    match found {
        Some(above) => match role_of(above.node.kind) {
            Role::Keyed => is_link(above.node.first, k),
            _ => false,
        },
        None => false,
    }
}

/// Whether node k is the first child of an item with a key.
pub fn is_key(nodes: &[TreeNode], parents: &[Option<usize>], k: usize) -> bool
    ensures { result ≡ is_key_of nodes.now parents.now k }
{
    keyed_at(k, found_in(nodes, parents, k))
}
