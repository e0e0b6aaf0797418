// What a file declares in functions.
ghost use Rattle.std.specs.Prelude.{◌≡◌, ◌<◌, ℕ, Bool, List, Some, IfOk, true, length, slice_get};
ghost use Rattle.argot_names_rules.specs.Files.{SourceFiles};
ghost use Rattle.argot_names_blocks.specs.declared.binding.Binding.{Binding};
ghost use Rattle.argot_names_imports.specs.declared.reached.Reached.{Reached};
ghost use Rattle.argot_names_imports.specs.Reached.{IsReach};
ghost use Rattle.argot_names_imports.specs.Numbers.{IsOfNumber};
ghost use Rattle.argot_names_tops.specs.Tops.{IsNamesOf};
ghost use Rattle.argot_names_uses.specs.Bases.{AreBases};
ghost use Rattle.argot_names_uses.specs.Givers.{GivesNew};
ghost use Rattle.argot_names_uses.specs.Items.{IsNewIn, OfFile, AreItems};

use crate::item::{Item, item_of};
use argot_names_blocks::Binding;
use argot_names_scopes::{FileNames, spelled_at};
use argot_text::Memory;
use std::alloc::Global;

// The name of this number.
fn brought_at(brought: &[Binding], k: usize) -> Binding
    requires { k < length brought.now }
    ensures { slice_get brought.now k ≡ Some result }
{
    brought[k]
}

// Whether the name of this number is new.
fn is_new(news: &[bool], k: usize) -> bool
    ensures { (b : Bool) → slice_get news.now k ≡ Some b → result ≡ b }
{
    match news.get(k) {
        Some(new) => *new,
        None => false,
    }
}

// The declaration that one of the names would be.
fn new_item<'a>(
    bases: &[u32],
    names: &FileNames<'a>,
    owner: u32,
    file: u32,
    k: usize,
) -> Result<Item<'a>, Memory>
    requires { k < length names.now.bindings.brought.items }
    ensures { (h : SourceFiles) → AreBases h.trees bases.now → IsNamesOf h file names.now
        → slice_get names.now.news.items k ≡ Some true → IfOk result (GivesNew h names.now owner file k) }
{
    let brought = brought_at(&names.bindings.brought, k);
    let name = spelled_at(names.bytes, names.tokens, brought.token);
    item_of(bases, owner, file, brought.node, name)
}

/// The declarations in functions of a file of the package of this number: of the names that come into blocks the new ones.
pub fn new_items<'a>(
    alloc: Global,
    bases: &[u32],
    names: &FileNames<'a>,
    owner: u32,
    file: u32,
) -> Result<Vec<Item<'a>>, Memory>
    ensures { (h : SourceFiles) (main : List ℕ) (r : Reached) → AreBases h.trees bases.now
        → IsNamesOf h file names.now → IsReach h main r → IsOfNumber h r file owner
        → IfOk result (λ v. AreItems h r (OfFile file (IsNewIn h)) v.items) }
{
    let mut items = Vec::new(alloc);
    for k in 0..names.bindings.brought.len() {
        if is_new(&names.news, k) {
            items.push(new_item(bases, names, owner, file, k)?)?;
        }
    }
    Ok(items)
}
