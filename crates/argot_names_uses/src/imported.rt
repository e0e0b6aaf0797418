// What imports declare.
ghost use Rattle.std.specs.Prelude.{◌≡◌, ◌<◌, ℕ, List, Some, IfOk, length, slice_get};
ghost use Rattle.argot_names_rules.specs.Files.{SourceFiles};
ghost use Rattle.argot_names_imports.specs.declared.written.Written.{Written};
ghost use Rattle.argot_names_imports.specs.Reached.{IsReach};
ghost use Rattle.argot_names_tops.specs.Importing.{AreImportNames};
ghost use Rattle.argot_names_uses.specs.Bases.{AreBases};
ghost use Rattle.argot_names_uses.specs.Givers.{GivesImport};
ghost use Rattle.argot_names_uses.specs.Items.{IsImportIn, AreItems};

use crate::item::{Item, item_of};
use argot_names_imports::{Reached, Written, package_of};
use argot_names_tops::Named;
use argot_text::Memory;
use std::alloc::Global;

// The name of this number.
fn named_at<'a>(imports: &[Named<'a>], k: usize) -> Named<'a>
    requires { k < length imports.now }
    ensures { slice_get imports.now k ≡ Some result }
{
    imports[k]
}

// The node of an import.
fn node_of(imports: &[Written], number: usize) -> Option<usize>
    ensures { (w : Written) → slice_get imports.now number ≡ Some w → result ≡ Some w.node }
{
    match imports.get(number) {
        Some(import) => Some(import.node as usize),
        None => None,
    }
}

// The declaration that one of the names is.
fn import_item<'a>(
    bases: &[u32],
    reached: &Reached,
    imports: &[Named<'a>],
    k: usize,
) -> Result<Item<'a>, Memory>
    requires { k < length imports.now }
    ensures { (h : SourceFiles) (main : List ℕ) → AreBases h.trees bases.now → IsReach h main reached.now
        → AreImportNames h reached.now imports.now → IfOk result (GivesImport h reached.now imports.now k) }
{
    let named = named_at(imports, k);
    let Some(owner) = package_of(reached, named.scope) else {
        return Err(Memory);
    };
    match node_of(&reached.survey.imports, named.of) {
        Some(node) => item_of(bases, owner, named.scope, node, named.name),
        None => Err(Memory),
    }
}

/// The declarations of imports in the files of packages.
pub fn import_items<'a>(
    alloc: Global,
    bases: &[u32],
    reached: &Reached,
    imports: &[Named<'a>],
) -> Result<Vec<Item<'a>>, Memory>
    ensures { (h : SourceFiles) (main : List ℕ) → AreBases h.trees bases.now → IsReach h main reached.now
        → AreImportNames h reached.now imports.now
        → IfOk result (λ v. AreItems h reached.now (IsImportIn h) v.items) }
{
    let mut items = Vec::new(alloc);
    for k in 0..imports.len() {
        items.push(import_item(bases, reached, imports, k)?)?;
    }
    Ok(items)
}
