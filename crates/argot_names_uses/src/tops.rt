// What a file declares outside functions.
ghost use Rattle.std.specs.Prelude.{◌≡◌, ◌<◌, ℕ, List, Some, IfOk, length, slice_get};
ghost use Rattle.argot_names_rules.specs.Files.{SourceFiles};
ghost use Rattle.argot_names_blocks.specs.declared.tops.TopName.{TopName};
ghost use Rattle.argot_names_imports.specs.declared.reached.Reached.{Reached};
ghost use Rattle.argot_names_imports.specs.Reached.{IsReach};
ghost use Rattle.argot_names_imports.specs.Numbers.{IsOfNumber};
ghost use Rattle.argot_names_tops.specs.Tops.{IsNamesOf};
ghost use Rattle.argot_names_uses.specs.Bases.{AreBases};
ghost use Rattle.argot_names_uses.specs.Givers.{GivesTop};
ghost use Rattle.argot_names_uses.specs.Items.{IsTopIn, OfFile, AreItems};

use crate::item::{Item, item_of};
use argot_names_blocks::TopName;
use argot_names_scopes::{FileNames, spelled_at};
use argot_text::Memory;
use std::alloc::Global;

// The name of this number.
fn top_at(tops: &[TopName], k: usize) -> TopName
    requires { k < length tops.now }
    ensures { slice_get tops.now k ≡ Some result }
{
    tops[k]
}

// The declaration that one of the names is.
fn top_item<'a>(
    bases: &[u32],
    names: &FileNames<'a>,
    owner: u32,
    file: u32,
    k: usize,
) -> Result<Item<'a>, Memory>
    requires { k < length names.now.bindings.tops.items }
    ensures { (h : SourceFiles) → AreBases h.trees bases.now → IsNamesOf h file names.now
        → IfOk result (GivesTop h names.now owner file k) }
{
    let top = top_at(&names.bindings.tops, k);
    let name = spelled_at(names.bytes, names.tokens, top.token);
    item_of(bases, owner, file, top.node, name)
}

/// The declarations outside functions of a file of the package of this number.
pub fn top_items<'a>(
    alloc: Global,
    bases: &[u32],
    names: &FileNames<'a>,
    owner: u32,
    file: u32,
) -> Result<Vec<Item<'a>>, Memory>
    ensures { (h : SourceFiles) (main : List ℕ) (r : Reached) → AreBases h.trees bases.now
        → IsNamesOf h file names.now → IsReach h main r → IsOfNumber h r file owner
        → IfOk result (λ v. AreItems h r (OfFile file (IsTopIn h)) v.items) }
{
    let mut items = Vec::new(alloc);
    for k in 0..names.bindings.tops.len() {
        items.push(top_item(bases, names, owner, file, k)?)?;
    }
    Ok(items)
}
