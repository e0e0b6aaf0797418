// What the files of packages declare.
ghost use Rattle.std.specs.Prelude.{◌≡◌, ℕ, List, IfOk};
ghost use Rattle.argot_names_rules.specs.Files.{SourceFiles};
ghost use Rattle.argot_names_rules.specs.Loaded.{Declares};
ghost use Rattle.argot_names_imports.specs.declared.reached.Reached.{Reached};
ghost use Rattle.argot_names_imports.specs.Reached.{IsReach};
ghost use Rattle.argot_names_imports.specs.Numbers.{IsOfNumber};
ghost use Rattle.argot_names_tops.specs.Tops.{IsNamesOf, AreTops};
ghost use Rattle.argot_names_uses.specs.Bases.{AreBases};
ghost use Rattle.argot_names_uses.specs.Items.{NamesIn, OfFile, AreItems};

use crate::imported::import_items;
use crate::item::Item;
use crate::news::new_items;
use crate::tops::top_items;
use argot_names_imports::{Reached, package_of};
use argot_names_scopes::FileNames;
use argot_names_tops::{Tops, file_names};
use argot_text::Memory;
use std::alloc::Global;

// The declarations of names in a file of the package of this number.
fn own_items<'a>(
    alloc: Global,
    bases: &[u32],
    names: &FileNames<'a>,
    owner: u32,
    file: u32,
) -> Result<Vec<Item<'a>>, Memory>
    ensures { (h : SourceFiles) (main : List ℕ) (r : Reached) → AreBases h.trees bases.now
        → IsNamesOf h file names.now → IsReach h main r → IsOfNumber h r file owner
        → IfOk result (λ v. AreItems h r (OfFile file (NamesIn h)) v.items) }
{
    let mut items = top_items(alloc, bases, names, owner, file)?;
    let mut news = new_items(alloc, bases, names, owner, file)?;
    items.append(&mut news)?;
    Ok(items)
}

// Those in a file; nothing where it is of no package.
fn file_items<'a>(
    alloc: Global,
    bases: &[u32],
    reached: &Reached,
    tops: &Tops<'a>,
    file: u32,
) -> Result<Vec<Item<'a>>, Memory>
    ensures { (h : SourceFiles) (main : List ℕ) → AreBases h.trees bases.now → AreTops h main reached.now tops.now
        → IfOk result (λ v. AreItems h reached.now (OfFile file (NamesIn h)) v.items) }
{
    let Some(owner) = package_of(reached, file) else {
        return Ok(Vec::new(alloc));
    };
    match file_names(tops, file) {
        Some(names) => own_items(alloc, bases, names, owner, file),
        None => Ok(Vec::new(alloc)),
    }
}

/// All that the files of packages declare, in any order.
pub fn all_items<'a>(
    alloc: Global,
    bases: &[u32],
    reached: &Reached,
    tops: &Tops<'a>,
) -> Result<Vec<Item<'a>>, Memory>
    ensures { (h : SourceFiles) (main : List ℕ) → AreBases h.trees bases.now → AreTops h main reached.now tops.now
        → IfOk result (λ v. AreItems h reached.now (Declares h) v.items) }
{
    let Ok(count) = u32::try_from(tops.files.len()) else {
        return Err(Memory);
    };
    let mut items = import_items(alloc, bases, reached, &tops.imports)?;
    for file in 0..count {
        let mut more = file_items(alloc, bases, reached, tops, file)?;
        items.append(&mut more)?;
    }
    Ok(items)
}
