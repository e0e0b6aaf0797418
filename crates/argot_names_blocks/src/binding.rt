// What one node brings into a block.
ghost use Rattle.std.specs.Prelude.{◌≡◌, ◌+◌};
ghost use Rattle.argot_names_blocks.specs.Blocks.{AreSomeBlocks};
ghost use Rattle.argot_names_blocks.specs.Bringing.{brought_in, listed, function_at, owner_at, list_at, function_of, received, declared_below, defined_from, begins_at, ends_at, clause_at, used_below, switched_in, name_at, behind_colon, switch_above, bring_of};
ghost use Rattle.argot_names_blocks.specs.Roles.{role_of};

use crate::blocks::{Block, Span, block_around};
use crate::roles::{Role, role_of};
use crate::tables::{Found, Tables, found_at, found_in};
use argot_tree::TreeNode;

/// How a name comes into its block.
#[derive(Clone, Copy, Debug, PartialEq, Eq)]
pub enum BindingKind {
    /// By a declaration of constants, variables or a type.
    Specified,
    /// By `:=`.
    Defined,
    /// As a receiver, a parameter or a result.
    Received,
    /// As the name of a type switch.
    Switched,
}

/// A name that a node brings into a block: how, by which node, the token of the name, the block by its first token and its
/// last, and the token from which on it is in scope.
#[derive(Clone, Copy, Debug, PartialEq, Eq)]
pub struct Binding {
    pub manner: BindingKind,
    pub node: usize,
    pub token: u32,
    pub opens: u32,
    pub closes: u32,
    pub from: u64,
}

/// A name that comes into a block.
fn brought_in(
    block: Option<Span>,
    manner: BindingKind,
    node: usize,
    token: u32,
    from: u64,
) -> Option<Binding>
    ensures { result ≡ brought_in block manner node token from }
{
    match block {
        Some(span) => Some(Binding {
            manner,
            node,
            token,
            opens: span.opens,
            closes: span.closes,
            from,
        }),
        None => None,
    }
}

/// A name among names, by the node above these.
fn listed(blocks: &[Block], k: usize, token: u32, above: Option<Found>) -> Option<Binding>
    requires { AreSomeBlocks blocks.now }
    ensures { result ≡ listed blocks.now k token above }
{
    match above {
        Some(stmt) => {
            let node = stmt.node;
            let behind = node.last as u64 + 1;
            let block = block_around(blocks, node.token);
            match role_of(node.kind) {
                Role::Values => brought_in(block, BindingKind::Specified, k, token, behind),
                Role::Define => brought_in(block, BindingKind::Defined, k, token, behind),
                _ => None,
            }
        }
        None => None,
    }
}

/// The node where it is a function.
fn function_at(found: Option<Found>) -> Option<Found>
    ensures { result ≡ function_at found }
{
    match found {
        Some(f) => match role_of(f.node.kind) {
            Role::Function => Some(f),
            _ => None,
        },
        None => None,
    }
}

/// The function that has a list of parameters, by the node above the list.
fn owner_at(nodes: &[TreeNode], parents: &[Option<usize>], above: Option<Found>) -> Option<Found>
    ensures { result ≡ owner_at nodes.now parents.now above }
{
    match above {
        Some(owner) => match role_of(owner.node.kind) {
            Role::Function => Some(owner),
            Role::Signature => function_at(found_in(nodes, parents, owner.at)),
            _ => None,
        },
        None => None,
    }
}

/// The function of a list of parameters.
fn list_at(nodes: &[TreeNode], parents: &[Option<usize>], found: Option<Found>) -> Option<Found>
    ensures { result ≡ list_at nodes.now parents.now found }
{
    match found {
        Some(list) => match role_of(list.node.kind) {
            Role::Entries => owner_at(nodes, parents, found_in(nodes, parents, list.at)),
            _ => None,
        },
        None => None,
    }
}

/// A parameter comes into the body of its function.
fn received(
    nodes: &[TreeNode],
    keys: &[Option<usize>],
    k: usize,
    token: u32,
    function: Option<Found>,
) -> Option<Binding>
    ensures { result ≡ received nodes.now keys.now k token function }
{
    match function {
        Some(f) => match found_in(nodes, keys, f.at) {
            Some(body) => Some(Binding {
                manner: BindingKind::Received,
                node: k,
                token,
                opens: body.node.token,
                closes: body.node.last,
                from: body.node.token as u64,
            }),
            None => None,
        },
        None => None,
    }
}

/// A name that is declared, by the node above it.
fn declared_below(t: &Tables, k: usize, token: u32, found: Option<Found>) -> Option<Binding>
    requires { AreSomeBlocks t.now.blocks.now }
    ensures { result ≡ declared_below t.now.nodes.now t.now.parents.now t.now.keys.now t.now.blocks.now k token found }
{
    let above = found?;
    let further = found_in(t.nodes, t.parents, above.at);
    match role_of(above.node.kind) {
        Role::Names => listed(t.blocks, k, token, further),
        Role::Kind => {
            let block = block_around(t.blocks, above.node.token);
            brought_in(block, BindingKind::Specified, k, token, token as u64)
        }
        Role::Entry => received(
            t.nodes,
            t.keys,
            k,
            token,
            list_at(t.nodes, t.parents, further),
        ),
        _ => None,
    }
}

/// A name on the left of the `:=` of a clause, in scope from a place on.
fn defined_from(k: usize, token: u32, stmt: TreeNode, from: Option<u64>) -> Option<Binding>
    ensures { result ≡ defined_from k token stmt from }
{
    match from {
        Some(from) => Some(Binding {
            manner: BindingKind::Defined,
            node: k,
            token,
            opens: stmt.token,
            closes: stmt.last,
            from,
        }),
        None => None,
    }
}

/// Where a body begins.
fn begins_at(found: Option<Found>) -> Option<u64>
    ensures { result ≡ begins_at found }
{
    match found {
        Some(body) => Some(body.node.token as u64),
        None => None,
    }
}

/// What stands behind an operand.
fn ends_at(found: Option<Found>) -> Option<u64>
    ensures { result ≡ ends_at found }
{
    match found {
        Some(operand) => Some(operand.node.last as u64 + 1),
        None => None,
    }
}

/// A link to a node, as its number.
pub fn linked(link: Option<u32>) -> Option<usize>
    ensures { result ≡ link }
{
    match link {
        Some(at) => Some(at as usize),
        None => None,
    }
}

/// A name among the expressions of a clause, by the clause.
fn clause_at(
    t: &Tables,
    k: usize,
    token: u32,
    list: TreeNode,
    found: Option<Found>,
) -> Option<Binding>
    ensures { result ≡ clause_at t.now.nodes.now t.now.keys.now k token list found }
{
    let stmt = found?;
    match role_of(stmt.node.kind) {
        Role::RangeDefine => {
            let from = begins_at(found_in(t.nodes, t.keys, stmt.at));
            defined_from(k, token, stmt.node, from)
        }
        Role::ReceiveDefine => {
            let from = ends_at(found_at(t.nodes, linked(list.next)));
            defined_from(k, token, stmt.node, from)
        }
        _ => None,
    }
}

/// A name in the place of a value, by the node above it.
fn used_below(t: &Tables, k: usize, token: u32, found: Option<Found>) -> Option<Binding>
    ensures { result ≡ used_below t.now.nodes.now t.now.parents.now t.now.keys.now k token found }
{
    let list = found?;
    match role_of(list.node.kind) {
        Role::Expressions => {
            clause_at(
                t,
                k,
                token,
                list.node,
                found_in(t.nodes, t.parents, list.at),
            )
        }
        _ => None,
    }
}

/// The name of a type switch in one of its clauses.
fn switched_in(
    k: usize,
    clause: TreeNode,
    from: Option<u64>,
    name: Option<Found>,
) -> Option<Binding>
    ensures { result ≡ switched_in k clause from name }
{
    match (from, name) {
        (Some(from), Some(name)) => Some(Binding {
            manner: BindingKind::Switched,
            node: k,
            token: name.node.token,
            opens: clause.token,
            closes: clause.last,
            from,
        }),
        _ => None,
    }
}

/// The name in the head of a type switch.
fn name_at(nodes: &[TreeNode], keys: &[Option<usize>], found: Option<Found>) -> Option<Found>
    ensures { result ≡ name_at nodes.now keys.now found }
{
    match found {
        Some(guard) => found_in(nodes, keys, guard.at),
        None => None,
    }
}

/// What stands behind the colon of a clause.
fn behind_colon(
    nodes: &[TreeNode],
    keys: &[Option<usize>],
    k: usize,
    clause: TreeNode,
    role: Role,
) -> Option<u64>
    ensures { result ≡ behind_colon nodes.now keys.now k clause role }
{
    match role {
        Role::Case => match found_in(nodes, keys, k) {
            Some(values) => Some(values.node.last as u64 + 2),
            None => None,
        },
        Role::Default => Some(clause.token as u64 + 2),
        _ => None,
    }
}

/// A clause, by the node above it.
fn switch_above(
    nodes: &[TreeNode],
    keys: &[Option<usize>],
    k: usize,
    clause: TreeNode,
    found: Option<Found>,
) -> Option<Binding>
    ensures { result ≡ switch_above nodes.now keys.now k clause found }
{
    match found {
        Some(stmt) => match role_of(stmt.node.kind) {
            Role::TypeSwitch => switched_in(
                k,
                clause,
                behind_colon(nodes, keys, k, clause, role_of(clause.kind)),
                name_at(nodes, keys, found_in(nodes, keys, stmt.at)),
            ),
            _ => None,
        },
        None => None,
    }
}

/// What node k brings.
pub fn bring(t: &Tables, k: usize) -> Option<Binding>
    requires { AreSomeBlocks t.now.blocks.now }
    ensures { result ≡ bring_of t.now.nodes.now t.now.parents.now t.now.keys.now t.now.blocks.now k }
{
    let node = t.nodes.get(k)?;
    let above = found_in(t.nodes, t.parents, k);
    match role_of(node.kind) {
        Role::Declared => declared_below(t, k, node.token, above),
        Role::Used => used_below(t, k, node.token, above),
        Role::Case | Role::Default => switch_above(t.nodes, t.keys, k, *node, above),
        _ => None,
    }
}
