// What a graph leads to from one node.
ghost use Rattle.std.specs.Prelude.{◌≡◌, ◌<◌, ◌^◌, ◌⊎◌, ◌↔◌, ◌++◌, ℕ, List, Some, nat_eq, length, OnOk, IfOk, slice_get};
ghost use Rattle.std.specs.HashSet.{IsUnique};
ghost use Rattle.argot_names_rules.specs.Lists.{In};
ghost use Rattle.argot_names_imports.specs.Graph.{Leads, Reaches};

use argot_links::Chains;
use argot_text::Memory;
use indexmap::IndexSet;
use std::alloc::Global;

// Puts down one node, where it isn't there.
fn put(reached: &mut IndexSet<u32>, node: u32) -> Result<(), Memory>
    ensures there { OnOk result (In node reached.new.keys) }
    ensures kept { OnOk result ((more : List ℕ) × (reached.new.keys ≡ reached.old.keys ++ more)) }
    ensures only { OnOk result ((t : ℕ) → In t reached.new.keys → In t reached.old.keys ⊎ (t ≡ node)) }
    ensures unique { OnOk result (IsUnique nat_eq reached.new) }
{
    reached.insert_full(node)?;
    Ok(())
}

// Puts down all that one node leads to.
fn expand(graph: &Chains, reached: &mut IndexSet<u32>, node: u32) -> Result<(), Memory>
    requires node { node < length graph.now.lists }
    requires unique { IsUnique nat_eq reached.old }
    ensures there { OnOk result ((t : ℕ) → Leads graph.now.lists node t → In t reached.new.keys) }
    ensures kept { OnOk result ((more : List ℕ) × (reached.new.keys ≡ reached.old.keys ++ more)) }
    ensures only { OnOk result ((t : ℕ) → In t reached.new.keys → In t reached.old.keys ⊎ Leads graph.now.lists node t) }
    ensures unique { OnOk result (IsUnique nat_eq reached.new) }
{
    for t in graph.walk(node) {
        put(reached, t)?;
    }
    Ok(())
}

/// All that the graph leads to from one node, which is the first; each stands once. The graph leads to nodes below the
/// count.
pub fn reach_from(alloc: Global, graph: &Chains, start: u32) -> Result<IndexSet<u32>, Memory>
    requires small { length graph.now.lists < 2 ^ 32 }
    requires start { start < length graph.now.lists }
    requires below { (l t : ℕ) → Leads graph.now.lists l t → t < length graph.now.lists }
    ensures first { IfOk result (λ r. slice_get r.keys 0 ≡ Some start) }
    ensures all { IfOk result (λ r. (t : ℕ) → In t r.keys ↔ Reaches graph.now.lists start t) }
    ensures unique { IfOk result (IsUnique nat_eq) }
{
    let mut reached = IndexSet::new(alloc);
    put(&mut reached, start)?;
    let mut at = 0;
    while let Some(node) = reached.get_index(at).copied() {
        expand(graph, &mut reached, node)?;
        at += 1;
    }
    Ok(reached)
}
