// What one node declares outside functions.
ghost use Rattle.std.specs.Prelude.{◌≡◌, slice_get};
ghost use Rattle.argot_names_blocks.specs.Blocks.{AreSomeBlocks, span_in};
ghost use Rattle.argot_names_blocks.specs.Looking.{is_out, is_func_decl, is_false, top_if, top_listed, top_below, top_of};
ghost use Rattle.argot_names_blocks.specs.Roles.{role_of};

use crate::blocks::{Block, block_around};
use crate::roles::{Role, role_of};
use crate::tables::{Found, Tables, found_in};
use argot_tree::NodeKind;

/// What a name stands for that is declared outside functions.
#[derive(Clone, Copy, Debug, PartialEq, Eq)]
pub enum Sort {
    Value,
    /// A type.
    Kind,
    Function,
}

/// A name that is declared outside functions, with its node and its token.
#[derive(Clone, Copy, Debug, PartialEq, Eq)]
pub struct TopName {
    pub sort: Sort,
    pub node: usize,
    pub token: u32,
}

/// Whether the token stands outside all blocks.
fn is_out(blocks: &[Block], token: u32) -> bool
    requires { AreSomeBlocks blocks.now }
    ensures { result ≡ is_out (span_in blocks.now token) }
{
    match block_around(blocks, token) {
        Some(_) => false,
        None => true,
    }
}

/// Whether the node is the declaration of a function or a method.
fn is_func_decl(kind: NodeKind) -> bool
    ensures { result ≡ is_func_decl kind }
{
    matches!(kind, NodeKind::FuncDecl)
}

/// Whether the node has no mark.
fn is_unmarked(marks: &[bool], k: usize) -> bool
    ensures { result ≡ is_false (slice_get marks.now k) }
{
    match marks.get(k) {
        Some(marked) => !*marked,
        None => false,
    }
}

/// The name where the claim holds.
fn top_if(holds: bool, sort: Sort, k: usize, token: u32) -> Option<TopName>
    ensures { result ≡ top_if holds sort k token }
{
    if holds {
        Some(TopName {
            sort,
            node: k,
            token,
        })
    } else {
        None
    }
}

/// A name among names, by the node above these.
fn top_listed(blocks: &[Block], k: usize, token: u32, found: Option<Found>) -> Option<TopName>
    requires { AreSomeBlocks blocks.now }
    ensures { result ≡ top_listed blocks.now k token found }
{
    match found {
        Some(spec) => match role_of(spec.node.kind) {
            Role::Values => top_if(is_out(blocks, spec.node.token), Sort::Value, k, token),
            _ => None,
        },
        None => None,
    }
}

/// A name that is declared, by the node above it.
fn top_below(t: &Tables, k: usize, token: u32, found: Option<Found>) -> Option<TopName>
    requires { AreSomeBlocks t.now.blocks.now }
    ensures { result ≡ top_below t.now.nodes.now t.now.parents.now t.now.blocks.now t.now.receivers.now k token found }
{
    let above = found?;
    match role_of(above.node.kind) {
        Role::Names => top_listed(t.blocks, k, token, found_in(t.nodes, t.parents, above.at)),
        Role::Kind => top_if(is_out(t.blocks, above.node.token), Sort::Kind, k, token),
        Role::Function => {
            let is_function = is_func_decl(above.node.kind) && is_unmarked(t.receivers, above.at);
            top_if(is_function, Sort::Function, k, token)
        }
        _ => None,
    }
}

/// What node k declares outside functions.
pub fn top_at(t: &Tables, k: usize) -> Option<TopName>
    requires { AreSomeBlocks t.now.blocks.now }
    ensures { result ≡ top_of t.now.nodes.now t.now.parents.now t.now.blocks.now t.now.receivers.now k }
{
    let node = t.nodes.get(k)?;
    match role_of(node.kind) {
        Role::Declared => top_below(t, k, node.token, found_in(t.nodes, t.parents, k)),
        _ => None,
    }
}
