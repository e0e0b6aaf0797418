// The names of imports by the packages of their files.
ghost use Rattle.std.specs.Prelude.{◌≡◌, ℕ, List, IfOk, IfSome, IfNone, length};
ghost use Rattle.argot_names_rules.specs.Files.{SourceFiles};
ghost use Rattle.argot_names_imports.specs.Reached.{IsReach};
ghost use Rattle.argot_names_tops.specs.declared.named.Named.{Named};
ghost use Rattle.argot_names_tops.specs.Collecting.{AreCollected};
ghost use Rattle.argot_names_tops.specs.Behind.{GivesPackaged};

use crate::declared_names::push_some;
use crate::entries::item_at;
use crate::named::Named;
use argot_names_imports::{Reached, package_of};
use argot_text::Memory;
use std::alloc::Global;

// The item with its file's package as its scope.
fn packaged<'a>(reached: &Reached, k: usize, item: &Named<'a>) -> Option<Named<'a>>
    ensures some { (h : SourceFiles) (main : List ℕ) → IsReach h main reached.now
        → IfSome result (GivesPackaged h reached.now k item.now) }
    ensures none { (h : SourceFiles) (main : List ℕ) (n : Named) → IsReach h main reached.now
        → IfNone result (GivesPackaged h reached.now k item.now n → ⊥) }
{
    match package_of(reached, item.scope) {
        Some(number) => Some(Named {
            scope: number,
            name: item.name,
            place: item.place,
            of: item.of,
        }),
        None => None,
    }
}

/// The names of imports; each item's scope is its file's package.
pub fn packaged_imports<'a>(
    alloc: Global,
    reached: &Reached,
    imports: &[Named<'a>],
) -> Result<Vec<Named<'a>>, Memory>
    ensures { (h : SourceFiles) (main : List ℕ) → IsReach h main reached.now
        → IfOk result (λ v. AreCollected (GivesPackaged h reached.now) imports.now (length imports.now) v.items) }
{
    let mut out = Vec::new(alloc);
    for k in 0..imports.len() {
        push_some(&mut out, packaged(reached, k, item_at(imports, k)))?;
    }
    Ok(out)
}
