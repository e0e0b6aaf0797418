// Pairs of a path and bytes, as a folder.
ghost use Rattle.std.specs.Prelude.{◌≡◌, ◌↔◌, ◌++◌, IfOk, IsTrue, OnOk, codes, string_bytes};
ghost use Rattle.std.specs.Option.{option_copied, option_map, option_to_list};
ghost use Rattle.argot_io.specs.Told.{HasDistinctPaths, IsListing, after_prefix, content};
ghost use Rattle.argot_io.specs.Entries.{entries_of};

use crate::below::after;
use argot_text::{Memory, Text, Texts};
use std::alloc::Global;

/// The bytes at the path, if it is there.
pub fn found<'a>(entries: &'a [(Text, Vec<u8>)], path: &str) -> Option<&'a Vec<u8>>
    ensures { option_map (λ bytes. bytes.items) (option_copied result) ≡ content path.now (entries_of entries.now) }
{
    for entry in entries {
        if path == entry.0.as_str() {
            return Some(&entry.1);
        }
    }
    None
}

/// Whether no path stands there twice.
pub fn are_distinct(entries: &[(Text, Vec<u8>)]) -> bool
    ensures { IsTrue result ↔ HasDistinctPaths (entries_of entries.now) }
{
    let mut rest = entries;
    while let [first, others @ ..] = rest {
        if found(others, first.0.as_str()).is_some() {
            return false;
        }
        rest = others;
    }
    true
}

/// The paths below the folder, relative to it, in byte order.
pub fn listed(alloc: Global, entries: &[(Text, Vec<u8>)], dir: &str) -> Result<Texts, Memory>
    ensures { IfOk result (IsListing dir.now (entries_of entries.now)) }
{
    let prefix = folder_prefix(alloc, dir)?;
    let mut texts = Vec::new(alloc);
    for entry in entries {
        push_after(alloc, &mut texts, prefix.as_str(), entry.0.as_str())?;
    }
    texts.sort()?;
    Ok(Texts::from_vec(texts))
}

// What the paths below the folder begin with.
fn folder_prefix(alloc: Global, dir: &str) -> Result<String, Memory>
    ensures { IfOk result (λ prefix. string_bytes prefix ≡ dir.now ++ codes "/") }
{
    let mut prefix = String::from_str(alloc, dir)?;
    prefix.push_str("/")?;
    Ok(prefix)
}

// Puts what follows the prefix last, if the path begins so.
fn push_after(alloc: Global, texts: &mut Vec<Text>, prefix: &str, path: &str) -> Result<(), Memory>
    ensures { OnOk result (texts.new.items ≡ texts.old.items ++ option_to_list (after_prefix prefix.now path.now)) }
{
    if let Some(rest) = after(prefix, path) {
        texts.push(Text::from_str(alloc, rest)?)?;
    }
    Ok(())
}
