// Names of functions that are declared again in their block.
ghost use Rattle.std.specs.Prelude.{◌≡◌, ◌↔◌, ◌+◌, ◌<◌, IsTrue, true, false, length, slice_get};
ghost use Rattle.argot_names_blocks.specs.declared.binding.BindingKind.TheVariants.{Specified};
ghost use Rattle.argot_names_scopes.specs.Tables.{AreFirstNames};
ghost use Rattle.argot_names_scopes.specs.Again.{start_of, sooner_of, IsAgainIn, IsFirstAgain};

use crate::earliest::has_earlier;
use crate::firsts::item_at;
use crate::texts::is_blank;
use argot_names_blocks::{Binding, BindingKind};
use argot_tree::Token;
use indexmap::IndexMap;

/// Whether the item is declared by a specification.
fn is_specified(item: Binding) -> bool
    ensures { IsTrue result ↔ (item.manner ≡ Specified) }
{
    match item.manner {
        BindingKind::Specified => true,
        _ => false,
    }
}

/// Whether the item declares a name again that its block has.
fn is_again(
    bytes: &[u8],
    tokens: &[Token],
    brought: &[Binding],
    firsts: &IndexMap<(u32, &[u8]), usize>,
    item: Binding,
) -> bool
    requires { AreFirstNames bytes.now tokens.now brought.now (length brought.now) firsts.now }
    ensures there { result ≡ true → IsAgainIn bytes.now tokens.now brought.now item }
    ensures none { result ≡ false → IsAgainIn bytes.now tokens.now brought.now item → ⊥ }
{
    is_specified(item)
        && !is_blank(bytes, tokens, item.token)
        && has_earlier(bytes, tokens, brought, firsts, item.token, item.opens)
}

/// The first byte of a token, where there is one.
fn start_of(tokens: &[Token], at: u32) -> Option<u32>
    ensures { result ≡ start_of (slice_get tokens.now at) }
{
    match tokens.get(at as usize) {
        Some(token) => Some(token.start),
        None => None,
    }
}

/// The smaller one of two offsets.
fn sooner_of(best: Option<u32>, offset: Option<u32>) -> Option<u32>
    ensures { result ≡ sooner_of best offset }
{
    match offset {
        None => best,
        Some(b) => match best {
            None => Some(b),
            Some(a) => { if a <= b { Some(a) } else { Some(b) } }
        },
    }
}

/// The sooner one of the first place so far and item k.
fn step(
    bytes: &[u8],
    tokens: &[Token],
    brought: &[Binding],
    firsts: &IndexMap<(u32, &[u8]), usize>,
    k: usize,
    first: Option<u32>,
) -> Option<u32>
    requires firsts { AreFirstNames bytes.now tokens.now brought.now (length brought.now) firsts.now }
    requires item { k < length brought.now }
    requires so_far { IsFirstAgain bytes.now tokens.now brought.now k first }
    ensures { IsFirstAgain bytes.now tokens.now brought.now (k + 1) result }
{
    let item = item_at(brought, k);
    if is_again(bytes, tokens, brought, firsts, item) {
        return sooner_of(first, start_of(tokens, item.token));
    }
    first
}

/// The first byte of the first name in a function that is declared again in its block; none where there is none.
pub fn first_again(
    bytes: &[u8],
    tokens: &[Token],
    brought: &[Binding],
    firsts: &IndexMap<(u32, &[u8]), usize>,
) -> Option<u32>
    requires { AreFirstNames bytes.now tokens.now brought.now (length brought.now) firsts.now }
    ensures { IsFirstAgain bytes.now tokens.now brought.now (length brought.now) result }
{
    let mut first = None;
    for k in 0..brought.len() {
        first = step(bytes, tokens, brought, firsts, k, first);
    }
    first
}
