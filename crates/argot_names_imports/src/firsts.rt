// The first file of each package, by the folder that the package is in or the path of its library text.
ghost use Rattle.std.specs.Prelude.{◌≡◌, ℕ, List, Some, None, length, IfSome, IfNone, OnOk, IfOk};
ghost use Rattle.argot_names_rules.specs.Agreeing.{is_go_file};
ghost use Rattle.argot_names_imports.specs.Keys.{key_of};
ghost use Rattle.argot_names_imports.specs.Firsts.{found_at, noted, AreFirsts};

use crate::folders::folder_of;
use argot_text::{Memory, Texts};
use indexmap::IndexMap;
use std::alloc::Global;

/// The two sorts of packages.
#[derive(Clone, Copy, PartialEq, Eq)]
pub enum Sort {
    Folders,
    Libraries,
}

// The path ends in `.go`.
fn is_go(path: &str) -> bool
    ensures { result ≡ is_go_file path.now }
{
    path.ends_with(".go")
}

/// What a file's package is known by, where it is of that sort.
pub fn key_of(sort: Sort, path: &str) -> Option<&[u8]>
    ensures some { IfSome result (λ key. key_of sort path.now ≡ Some key.now) }
    ensures none { IfNone result (key_of sort path.now ≡ None) }
{
    match sort {
        Sort::Folders => {
            if is_go(path) {
                Some(folder_of(path).as_bytes())
            } else {
                None
            }
        }
        Sort::Libraries => Some(path.strip_prefix("stub:")?.as_bytes()),
    }
}

// Puts the file down at that key, where no earlier one is.
fn note<'a>(firsts: &mut IndexMap<&'a [u8], u32>, key: &'a [u8], file: u32) -> Result<(), Memory>
    ensures { OnOk result ((q : List ℕ) → found_at firsts.new q ≡ noted (found_at firsts.old q) (Some key.now) file q) }
{
    if let Some(_) = firsts.get(key) {
        return Ok(());
    }
    firsts.insert(key, file)?;
    Ok(())
}

// Puts the file down as the first of its package, where no earlier one is.
fn note_file<'a>(
    firsts: &mut IndexMap<&'a [u8], u32>,
    sort: Sort,
    path: &'a str,
    file: u32,
) -> Result<(), Memory>
    ensures { OnOk result ((q : List ℕ) → found_at firsts.new q ≡ noted (found_at firsts.old q) (key_of sort path.now) file q) }
{
    match key_of(sort, path) {
        Some(key) => note(firsts, key, file),
        None => Ok(()),
    }
}

/// The first file of each package of a sort, by what the package is known by.
pub fn firsts_of<'a>(
    alloc: Global,
    sort: Sort,
    paths: &'a Texts,
) -> Result<IndexMap<&'a [u8], u32>, Memory>
    ensures { IfOk result (AreFirsts sort paths.now (length paths.now)) }
{
    let Ok(count) = u32::try_from(paths.len()) else {
        return Err(Memory);
    };
    let mut firsts = IndexMap::new(alloc);
    for file in 0..count {
        note_file(&mut firsts, sort, paths.get(file as usize).as_str(), file)?;
    }
    Ok(firsts)
}
