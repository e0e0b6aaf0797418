// Entries for functions without bodies, found by what they name.
ghost use Rattle.std.specs.Prelude.{◌≡◌, ◌↔◌, ◌<◌, IsTrue, true, cond, ℕ, List, length, slice_get, Some, IfOk, OnOk};
ghost use Rattle.argot_names_rules.specs.Subset.{HasEntry};
ghost use Rattle.argot_names_subset_file.specs.Entries.{names, has_key, IsKeyOf};

use argot_text::Memory;
use argot_tree::Entry;
use indexmap::IndexSet;
use std::alloc::Global;
use std::marker::Model;

/// What an entry names: a package's path, a receiver's type and a function.
#[derive(Clone, Copy, PartialEq, Eq, Hash)]
pub struct Key<'a> {
    pub package: &'a [u8],
    pub receiver: &'a [u8],
    pub name: &'a [u8],
}

/// Entries, seen as their list, with the set of what they name.
#[derive(Drop)]
pub struct EntryTable<'a> {
    entries: &'a [Entry],
    keys: IndexSet<Key<'a>>,
}

impl<'a> Model for EntryTable<'a> {
    ghost use Rattle.std.specs.Prelude.{List};
    ghost use Rattle.argot_tree.specs.declared.entries.Entry.{Entry};
    ghost use Rattle.argot_names_subset_file.specs.Entries.{AreKeysOf};

    ghost Value = { List Entry };

    ghost view = { λ it. it.entries.now };

    ghost invariant = { λ it. AreKeysOf it.keys it.entries.now };
}

/// Whether the set has the key.
fn has(keys: &IndexSet<Key>, key: Key) -> bool
    ensures { result ≡ has_key keys.now key.entry.package.now key.entry.receiver.now key.entry.name.now }
{
    keys.contains(&key)
}

/// Puts the key into the set.
fn put<'a>(keys: &mut IndexSet<Key<'a>>, key: Key<'a>) -> Result<(), Memory>
    ensures { OnOk result ((p r n : List ℕ) → has_key keys.new p r n ≡ cond (names key.entry p r n) true (has_key keys.old p r n)) }
{
    keys.insert(key)?;
    Ok(())
}

/// Entry k.
fn entry_at(entries: &[Entry], k: usize) -> &Entry
    requires { k < length entries.now }
    ensures { slice_get entries.now k ≡ Some result.now }
{
    &entries[k]
}

/// What the entry names.
fn key_of(entry: &Entry) -> Key
    ensures { IsKeyOf entry.now result }
{
    Key {
        package: entry.package.as_str().as_bytes(),
        receiver: entry.receiver.as_str().as_bytes(),
        name: entry.name.as_str().as_bytes(),
    }
}

/// The entries with the set of what they name.
pub fn entry_table<'a>(alloc: Global, entries: &'a [Entry]) -> Result<EntryTable<'a>, Memory>
    ensures { IfOk result (λ table. table ≡ entries.now) }
{
    let mut keys = IndexSet::new(alloc);
    for k in 0..entries.len() {
        put(&mut keys, key_of(entry_at(entries, k)))?;
    }
    Ok(EntryTable { entries, keys })
}

/// Whether there is an entry for the function of this name, of the receiver's type and the package's path.
pub fn has_entry<'x>(table: &EntryTable, path: &'x [u8], receiver: &'x [u8], name: &'x [u8]) -> bool
    ensures { IsTrue result ↔ HasEntry table.now path.now receiver.now name.now }
{
    has(
        &table.keys,
        Key {
            package: path,
            receiver,
            name,
        },
    )
}
