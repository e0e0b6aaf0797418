// The first name of each text in each block, as a table.
ghost use Rattle.std.specs.Prelude.{◌≡◌, ◌+◌, ◌<◌, ℕ, Some, length, slice_get, OnOk, IfOk};
ghost use Rattle.std.specs.Prelude.{◌≤◌, true, false};
ghost use Rattle.argot_names_blocks.specs.declared.binding.Binding.{Binding};
ghost use Rattle.argot_names_scopes.specs.Tables.{AreFirstNames};

use crate::texts::spelled_at;
use argot_names_blocks::Binding;
use argot_text::Memory;
use argot_tree::Token;
use indexmap::IndexMap;
use std::alloc::Global;

/// Item k.
pub fn item_at(brought: &[Binding], k: usize) -> Binding
    requires { k < length brought.now }
    ensures { slice_get brought.now k ≡ Some result }
{
    brought[k]
}

/// Whether the item of that number stands at this token or before it.
fn stands_before(brought: &[Binding], first: Option<usize>, token: u32) -> bool
    ensures there { result ≡ true → (k : ℕ) × (b : Binding) × (first ≡ Some k) × (slice_get brought.now k ≡ Some b) × (b.token ≤ token) }
    ensures none { result ≡ false → (k : ℕ) (b : Binding) → first ≡ Some k → slice_get brought.now k ≡ Some b → token < b.token }
{
    match first {
        Some(k) => match brought.get(k) {
            Some(b) => b.token <= token,
            None => false,
        },
        None => false,
    }
}

/// Puts item k down, where no earlier name of its block has its text.
fn note<'a>(
    bytes: &'a [u8],
    tokens: &[Token],
    brought: &[Binding],
    k: usize,
    firsts: &mut IndexMap<(u32, &'a [u8]), usize>,
) -> Result<(), Memory>
    requires item { k < length brought.now }
    requires so_far { AreFirstNames bytes.now tokens.now brought.now k firsts.old }
    ensures { OnOk result (AreFirstNames bytes.now tokens.now brought.now (k + 1) firsts.new) }
{
    let b = item_at(brought, k);
    let key = (b.opens, spelled_at(bytes, tokens, b.token));
    let first = firsts.get(&key).copied();
    if stands_before(brought, first, b.token) {
        return Ok(());
    }
    firsts.insert(key, k)?;
    Ok(())
}

/// For each block and text the number of the first name; as numbers of the list.
pub fn firsts_of<'a>(
    alloc: Global,
    bytes: &'a [u8],
    tokens: &[Token],
    brought: &[Binding],
) -> Result<IndexMap<(u32, &'a [u8]), usize>, Memory>
    ensures { IfOk result (AreFirstNames bytes.now tokens.now brought.now (length brought.now)) }
{
    let mut firsts = IndexMap::new(alloc);
    for k in 0..brought.len() {
        note(bytes, tokens, brought, k, &mut firsts)?;
    }
    Ok(firsts)
}
