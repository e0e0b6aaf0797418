// An order of the packages that are reached in which each stands before those that it imports, where there is one.
//
// The order is a try, which `falling` tests. Packages that one on a cycle leads to get no rank.
ghost use Rattle.std.specs.Prelude.{◌≡◌, ◌<◌, ◌≤◌, ℕ, true, length, slice_get, IfOk, OnOk};
ghost use Rattle.argot_names_rules.specs.Lists.{In};
ghost use Rattle.argot_names_imports.specs.Graph.{Leads};
ghost use Rattle.argot_names_packages.specs.Ranks.{rank_of};

use argot_links::Chains;
use argot_text::Memory;
use indexmap::IndexSet;
use std::alloc::Global;

// One more at this number.
fn raise(counts: &mut Vec<u32>, at: u32)
    ensures { length counts.new.items ≡ length counts.old.items }
{
    if (at as usize) < counts.len() {
        counts[at as usize] = counts[at as usize].saturating_add(1);
    }
}

// One less at this number; whether none is left.
fn lower(counts: &mut Vec<u32>, at: u32) -> bool
    ensures { length counts.new.items ≡ length counts.old.items }
{
    if (at as usize) >= counts.len() {
        return false;
    }
    counts[at as usize] = counts[at as usize].saturating_sub(1);
    counts[at as usize] == 0
}

// Puts the rank of a number.
fn put(ranks: &mut Vec<u32>, at: u32, rank: u32)
    ensures { length ranks.new.items ≡ length ranks.old.items }
{
    if (at as usize) < ranks.len() {
        ranks[at as usize] = rank;
    }
}

// One more for each edge from the node.
fn raise_targets(graph: &Chains, counts: &mut Vec<u32>, node: u32)
    requires { node < length graph.now.lists }
    ensures { length counts.new.items ≡ length counts.old.items }
{
    for t in graph.walk(node) {
        raise(counts, t);
    }
}

// How many edges of nodes that are reached lead to each node.
fn incoming_of(
    alloc: Global,
    graph: &Chains,
    reached: &IndexSet<u32>,
    count: u32,
) -> Result<Vec<u32>, Memory>
    requires { length graph.now.lists ≡ count }
    ensures { IfOk result (λ v. length v.items ≡ count) }
{
    let mut counts = vec![in alloc; 0u32; count as usize]?;
    for node in 0..count {
        if reached.contains(&node) {
            raise_targets(graph, &mut counts, node);
        }
    }
    Ok(counts)
}

// Takes away the edges from the node, and puts down the nodes to which none is left.
fn release(
    graph: &Chains,
    counts: &mut Vec<u32>,
    ready: &mut Vec<u32>,
    node: u32,
) -> Result<(), Memory>
    requires { node < length graph.now.lists }
    ensures { length counts.new.items ≡ length counts.old.items }
{
    for t in graph.walk(node) {
        if lower(counts, t) {
            ready.push(t)?;
        }
    }
    Ok(())
}

/// Falling ranks of the nodes from the first one on, as far as there are some.
pub fn ranks_of(
    alloc: Global,
    graph: &Chains,
    reached: &IndexSet<u32>,
    start: u32,
    count: u32,
) -> Result<Vec<u32>, Memory>
    requires { length graph.now.lists ≡ count }
    ensures { IfOk result (λ v. length v.items ≡ count) }
{
    let mut counts = incoming_of(alloc, graph, reached, count)?;
    let mut ranks = vec![in alloc; 0u32; count as usize]?;
    let mut ready = Vec::new(alloc);
    ready.push(start)?;
    for before in 0..count {
        let Some(node) = ready.pop() else {
            break;
        };
        put(&mut ranks, node, count - before);
        if node < count {
            release(graph, &mut counts, &mut ready, node)?;
        }
    }
    Ok(ranks)
}
