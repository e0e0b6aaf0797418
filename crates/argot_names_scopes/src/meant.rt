// Which of the names that came into a file's blocks a name means at its place.
ghost use Rattle.std.specs.Prelude.{◌≡◌, ◌↔◌, ◌<◌, IsTrue, Some, length, slice_get};
ghost use Rattle.argot_names_scopes.specs.Meant.{IsInScope, IsAhead, IsBest, IsBestFrom, IsBetter};
ghost use Rattle.argot_names_scopes.specs.Considering.{IsConsidered};
ghost use Rattle.argot_names_scopes.specs.Names.{AreNames};

use crate::file::FileNames;
use crate::firsts::item_at;
use crate::links::number_at;
use crate::shapes::has_shape;
use crate::texts::{is_blank, is_spelled};
use argot_names_blocks::{Binding, block_at, innermost};
use argot_tree::Token;

/// Whether the item has this name, which isn't `_`, and is in scope at the token.
fn is_in_scope(bytes: &[u8], tokens: &[Token], token: u32, name: &[u8], b: Binding) -> bool
    ensures { IsTrue result ↔ IsInScope bytes.now tokens.now token name.now b }
{
    b.from <= token as u64
        && token <= b.closes
        && !is_blank(bytes, tokens, b.token)
        && is_spelled(bytes, tokens, b.token, name)
}

/// Whether the one lies further in, or comes first in the same block.
fn is_ahead(a: Binding, b: Binding) -> bool
    ensures { IsTrue result ↔ IsAhead a b }
{
    b.opens < a.opens || (a.opens == b.opens && a.node <= b.node)
}

/// The better one of two.
fn better(best: Option<Binding>, b: Binding) -> Option<Binding>
    ensures { IsBetter best b result }
{
    match best {
        Some(a) => { if is_ahead(a, b) { Some(a) } else { Some(b) } }
        None => Some(b),
    }
}

/// The better one of the best so far and item k, where that is in scope.
fn consider(
    names: &FileNames,
    k: usize,
    token: u32,
    name: &[u8],
    best: Option<Binding>,
) -> Option<Binding>
    requires { k < length names.now.bindings.brought.items }
    ensures { IsConsidered names.now k token name.now best result }
{
    let b = item_at(&names.bindings.brought, k);
    if is_in_scope(names.bytes, names.tokens, token, name, b) {
        return better(best, b);
    }
    best
}

/// The number of the last new name before name k in its block with its text.
fn before_at(befores: &[Option<usize>], k: usize) -> Option<usize>
    requires { k < length befores.now }
    ensures { slice_get befores.now k ≡ Some result }
{
    befores[k]
}

/// The declaration in the block that the name means at the token; none where none of the block is in scope.
fn block_meant(names: &FileNames, opens: u32, token: u32, name: &[u8]) -> Option<Binding>
    requires { AreNames names.now }
    ensures { IsBestFrom names.now.bytes.now names.now.tokens.now names.now.bindings.brought.items names.now.news.items token name.now opens 0 result }
{
    let mut at = number_at(&names.links.lasts, opens, name);
    let mut best = None;
    while let Some(k) = at {
        best = consider(names, k, token, name, best);
        at = before_at(&names.links.befores, k);
    }
    best
}

/// The declaration in a function that the name means at the token: the innermost one that is in scope there, and the first
/// of its block; none where none is in scope. It looks into each block around the token, from the innermost outwards.
pub fn local_meant(names: &FileNames, token: u32, name: &[u8]) -> Option<Binding>
    requires { AreNames names.now }
    ensures { IsBest names.now.bytes.now names.now.tokens.now names.now.bindings.brought.items names.now.news.items token name.now (length names.now.bindings.brought.items) result }
{
    let blocks = names.bindings.blocks.as_slice();
    if !has_shape(&names.shapes, name) {
        return None;
    }
    let mut at = innermost(blocks, token);
    while let Some(k) = at {
        let block = block_at(blocks, k);
        if let Some(b) = block_meant(names, block.opens, token, name) {
            return Some(b);
        }
        at = block.outer;
    }
    None
}
