// Ranks that show which packages that are reached are on no cycle: each package that leads to one with a rank has a higher one.
//
// A rank of 0 is none. So where there is no cycle each package has a rank, and before one each that none on a cycle leads to.
ghost use Rattle.std.specs.Prelude.{◌≡◌, ◌<◌, ◌≤◌, ℕ, true, length, slice_get};
ghost use Rattle.argot_names_rules.specs.Lists.{In};
ghost use Rattle.argot_names_imports.specs.Graph.{Leads};
ghost use Rattle.argot_names_packages.specs.Ranks.{rank_of, FallsFrom};

use crate::standing::has;
use argot_links::Chains;
use indexmap::IndexSet;

/// The rank of a node, or 0. No memory.
pub fn rank_of(ranks: &[u32], node: u32) -> u32
    ensures { result ≡ rank_of ranks.now node }
{
    ranks.get(node as usize).copied().unwrap_or(0)
}

// Each edge from the node leads to a lower rank, or to a node without one.
fn falls(graph: &Chains, ranks: &[u32], node: u32) -> bool
    requires { node < length graph.now.lists }
    ensures { result ≡ true → FallsFrom graph.now.lists ranks.now node }
{
    let rank = rank_of(ranks, node);
    for t in graph.walk(node) {
        let other = rank_of(ranks, t);
        if other > 0 && other >= rank {
            return false;
        }
    }
    true
}

// So does each edge of a node that is reached.
fn all_fall(graph: &Chains, reached: &IndexSet<u32>, ranks: &[u32], count: u32) -> bool
    requires { length graph.now.lists ≡ count }
    ensures { result ≡ true → (l : ℕ) → l < count → In l reached.now.keys → FallsFrom graph.now.lists ranks.now l }
{
    for node in 0..count {
        if has(reached, node) && !falls(graph, ranks, node) {
            return false;
        }
    }
    true
}

/// The ranks, where they fall along all edges of packages that are reached; else none. No memory.
pub fn falling<'a>(
    graph: &Chains,
    reached: &IndexSet<u32>,
    ranks: &'a [u32],
    count: u32,
) -> &'a [u32]
    requires { length graph.now.lists ≡ count }
    ensures { (l : ℕ) → l < count → In l reached.now.keys → FallsFrom graph.now.lists result.now l }
{
    if all_fall(graph, reached, ranks, count) {
        ranks
    } else {
        &[]
    }
}
