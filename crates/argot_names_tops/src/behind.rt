// The first place of a name that its scope has from an earlier place.
ghost use Rattle.std.specs.Prelude.{◌≡◌, ◌<◌, ℕ, List, length};
ghost use Rattle.argot_names_tops.specs.declared.named.Named.{Named};
ghost use Rattle.argot_names_tops.specs.Entries.{AreEntries};
ghost use Rattle.argot_names_tops.specs.First.{NamesFirst, sooner_of};
ghost use Rattle.argot_names_tops.specs.Behind.{IsItemBehind, IsBehindBelow};

use crate::entries::{Entry, entry_at, item_at};
use crate::named::Named;
use argot_files::{Place, is_before};
use indexmap::IndexMap;

/// The one of two places that comes first, where there are two. No memory.
pub fn sooner(best: Option<Place>, place: Option<Place>) -> Option<Place>
    ensures { result ≡ sooner_of best place }
{
    match best {
        Some(a) => match place {
            Some(b) => { if is_before(b, a) { Some(b) } else { Some(a) } }
            None => Some(a),
        },
        None => place,
    }
}

// The place of the item, where it stands behind the earliest place of its name in its scope.
fn behind(entries: &IndexMap<(u32, &[u8]), Entry>, item: &Named) -> Option<Place>
    ensures { (others : List Named) → AreEntries others (length others) entries.now
        → NamesFirst (IsItemBehind others item.now) result }
{
    match entry_at(entries, item.scope, item.name) {
        Some(entry) => {
            if is_before(entry.place, item.place) {
                Some(item.place)
            } else {
                None
            }
        }
        None => None,
    }
}

/// The first place of an item that stands behind an entry's. No memory.
pub fn first_behind(entries: &IndexMap<(u32, &[u8]), Entry>, items: &[Named]) -> Option<Place>
    ensures { (others : List Named) → AreEntries others (length others) entries.now
        → NamesFirst (IsBehindBelow items.now others (length items.now)) result }
{
    let mut first = None;
    for k in 0..items.len() {
        first = sooner(first, behind(entries, item_at(items, k)));
    }
    first
}
