// A table of names: for each scope and name the first item that declares it, and its earliest place.
ghost use Rattle.std.specs.Prelude.{◌≡◌, ◌<◌, ℕ, List, OnOk, IfOk, IfSome, IfNone, length, Some, None, slice_get};
ghost use Rattle.argot_names_tops.specs.Entries.{found_at, entry_with, noted, AreEntries, IsAt, IsFirstItem};
ghost use Rattle.argot_names_tops.specs.declared.named.Named.{Named};

use crate::named::Named;
use argot_files::{Place, is_before};
use argot_text::Memory;
use indexmap::IndexMap;
use std::alloc::Global;

/// The number of the first item of a name, and the earliest place of one.
#[derive(Clone, Copy)]
pub struct Entry {
    pub first: usize,
    pub place: Place,
}

/// The entry of a name in a scope. No memory.
pub fn entry_at(entries: &IndexMap<(u32, &[u8]), Entry>, scope: u32, name: &[u8]) -> Option<Entry>
    ensures { result ≡ found_at entries.now scope name.now }
{
    let key = (scope, name);
    entries.get(&key).copied()
}

// The entry with one item more.
fn entry_with(entry: Option<Entry>, number: usize, place: Place) -> Entry
    ensures { result ≡ entry_with entry number place }
{
    match entry {
        Some(entry) => {
            if is_before(place, entry.place) {
                Entry {
                    first: entry.first,
                    place,
                }
            } else {
                entry
            }
        }
        None => Entry {
            first: number,
            place,
        },
    }
}

// Puts down the item of this number.
fn note<'a>(
    entries: &mut IndexMap<(u32, &'a [u8]), Entry>,
    item: &Named<'a>,
    number: usize,
) -> Result<(), Memory>
    ensures { OnOk result ((scope : ℕ) (name : List ℕ) → found_at entries.new scope name ≡ noted
        (found_at entries.old scope name) item.now number scope name) }
{
    let old = entry_at(entries, item.scope, item.name);
    let new = entry_with(old, number, item.place);
    entries.insert((item.scope, item.name), new)?;
    Ok(())
}

/// The item of this number. No memory.
pub fn item_at<'i, 'a>(items: &'i [Named<'a>], k: usize) -> &'i Named<'a>
    requires { k < length items.now }
    ensures { slice_get items.now k ≡ Some result.now }
{
    &items[k]
}

/// The entries of some items.
pub fn entries_of<'a>(
    alloc: Global,
    items: &[Named<'a>],
) -> Result<IndexMap<(u32, &'a [u8]), Entry>, Memory>
    ensures { IfOk result (AreEntries items.now (length items.now)) }
{
    let mut entries = IndexMap::new(alloc);
    for k in 0..items.len() {
        note(&mut entries, item_at(items, k), k)?;
    }
    Ok(entries)
}

// The item of this number, where there is one.
fn item_of<'i, 'a>(items: &'i [Named<'a>], k: usize) -> Option<&'i Named<'a>>
    ensures some { IfSome result (λ n. slice_get items.now k ≡ Some n.now) }
    ensures none { IfNone result (slice_get items.now k ≡ None) }
{
    if k < items.len() {
        Some(item_at(items, k))
    } else {
        None
    }
}

/// The first item that declares the name in the scope; none where none does. No memory.
pub fn first_item<'i, 'a>(
    entries: &IndexMap<(u32, &'a [u8]), Entry>,
    items: &'i [Named<'a>],
    scope: u32,
    name: &[u8],
) -> Option<&'i Named<'a>>
    ensures some { AreEntries items.now (length items.now) entries.now
        → IfSome result (λ n. IsFirstItem items.now scope name.now n.now) }
    ensures none { AreEntries items.now (length items.now) entries.now
        → IfNone result ((k : ℕ) (n : Named) → IsAt items.now scope name.now k n → ⊥) }
{
    match entry_at(entries, scope, name) {
        Some(entry) => item_of(items, entry.first),
        None => None,
    }
}
