// The new names of each text in each block, the last one first, as a table and links. A name that is in scope only where an
// earlier one of them is has no place among them: however often a block has a name, there is little to look at.
ghost use Rattle.std.specs.Prelude.{◌≡◌, ◌↔◌, ◌+◌, ◌<◌, ℕ, IsTrue, Some, true, length, slice_get, OnOk, IfOk};
ghost use Rattle.argot_names_blocks.specs.declared.binding.Binding.{Binding};
ghost use Rattle.argot_names_scopes.specs.Tables.{number_at, Covers, AreLinksUpTo, AreLinks};

use crate::firsts::item_at;
use crate::texts::spelled_at;
use argot_names_blocks::Binding;
use argot_text::Memory;
use argot_tree::Token;
use indexmap::IndexMap;
use std::alloc::Global;

/// For each block, by its first token, and each text the number of the last new name that is kept, and for each name the
/// number of the last one before it that is kept in its block with its text.
#[derive(Drop)]
pub struct Links<'a> {
    pub lasts: IndexMap<(u32, &'a [u8]), usize>,
    pub befores: Vec<Option<usize>>,
}

/// The number that the table has for the block and the text.
pub fn number_at(table: &IndexMap<(u32, &[u8]), usize>, opens: u32, text: &[u8]) -> Option<usize>
    ensures { result ≡ number_at table.now opens text.now }
{
    table.get(&(opens, text)).copied()
}

/// Whether item k is new.
pub fn new_at(news: &[bool], k: usize) -> bool
    requires { k < length news.now }
    ensures { slice_get news.now k ≡ Some result }
{
    news[k]
}

/// Whether the one is in scope wherever the other of its block is, and comes first of the two.
fn covers(a: Binding, b: Binding) -> bool
    ensures { IsTrue result ↔ Covers a b }
{
    a.from <= b.from && b.closes <= a.closes && a.node <= b.node
}

/// Whether the item of that number covers this one.
fn is_covered(brought: &[Binding], last: Option<usize>, b: Binding) -> bool
    ensures { result ≡ true → (k : ℕ) × (a : Binding) × (last ≡ Some k) × (slice_get brought.now k ≡ Some a) × Covers a b }
{
    match last {
        Some(k) => match brought.get(k) {
            Some(a) => covers(*a, b),
            None => false,
        },
        None => false,
    }
}

/// Puts item k down, where the last one of its block and text doesn't cover it.
fn link<'a>(
    bytes: &'a [u8],
    tokens: &[Token],
    brought: &[Binding],
    news: &[bool],
    k: usize,
    lasts: &mut IndexMap<(u32, &'a [u8]), usize>,
    befores: &mut Vec<Option<usize>>,
) -> Result<(), Memory>
    requires item { k < length brought.now }
    requires long { length news.now ≡ length brought.now }
    requires so_far { AreLinksUpTo bytes.now tokens.now brought.now news.now k lasts.old befores.old.items }
    ensures { OnOk result (AreLinksUpTo bytes.now tokens.now brought.now news.now (k + 1) lasts.new befores.new.items) }
{
    let b = item_at(brought, k);
    let text = spelled_at(bytes, tokens, b.token);
    let last = number_at(lasts, b.opens, text);
    befores.push(last)?;
    if is_covered(brought, last, b) {
        return Ok(());
    }
    if new_at(news, k) {
        lasts.insert((b.opens, text), k)?;
    }
    Ok(())
}

/// The tables of the new names. `news` says which of the names are new.
pub fn links_of<'a>(
    alloc: Global,
    bytes: &'a [u8],
    tokens: &[Token],
    brought: &[Binding],
    news: &[bool],
) -> Result<Links<'a>, Memory>
    requires { length news.now ≡ length brought.now }
    ensures { IfOk result (AreLinks bytes.now tokens.now brought.now news.now) }
{
    let mut lasts = IndexMap::new(alloc);
    let mut befores = Vec::new(alloc);
    for k in 0..brought.len() {
        link(bytes, tokens, brought, news, k, &mut lasts, &mut befores)?;
    }
    Ok(Links { lasts, befores })
}
