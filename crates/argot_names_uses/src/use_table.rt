// The table of uses, by the numbers of nodes.
ghost use Rattle.std.specs.Prelude.{◌≡◌, ◌<◌, ℕ, List, Some, IfOk, slice_get};
ghost use Rattle.argot_typed.specs.declared.program.Decl.{Decl};
ghost use Rattle.argot_typed.specs.declared.program.Use.{Use};
ghost use Rattle.argot_names_rules.specs.Lists.{IsListOf};
ghost use Rattle.argot_names_rules.specs.Loaded.{IsUse};
ghost use Rattle.argot_names_rules.specs.declared.package_key.PackageKey.{PackageKey};
ghost use Rattle.argot_names_rules.specs.Files.{SourceFiles};
ghost use Rattle.argot_names_uses.specs.UseTables.{noted, IsTable};

use crate::{entry_at, note};
use argot_text::Memory;
use argot_typed::Use;
use std::alloc::Global;

/// Puts the declaration at the node, where there is one; both by their numbers. No memory.
pub fn put(table: &mut Vec<Option<u32>>, node: Option<u32>, decl: Option<u32>)
    ensures { table.new.items ≡ noted table.old.items node decl }
{
    if let Some(decl) = decl {
        note(table, node, decl);
    }
}

/// The uses of a table of `count` nodes, by node.
pub fn listed(alloc: Global, table: &[Option<u32>], count: u32) -> Result<Vec<Use>, Memory>
    ensures { (h : SourceFiles) (homes : List PackageKey) (decls : List Decl)
        → IsTable h homes decls count table.now
        → IfOk result (λ v. IsListOf (λ (a b : Use). a.node < b.node) (IsUse h homes decls) v.items) }
{
    let mut uses = Vec::new(alloc);
    for node in 0..count {
        if let Some(decl) = entry_at(table, node) {
            uses.push(Use { node, decl })?;
        }
    }
    Ok(uses)
}
