// Edges in order, each once.
ghost use Rattle.std.specs.Prelude.{◌≡◌, ◌+◌, ◌<◌, ℕ, IfOk, OnOk, length, slice_get, true, false};
ghost use Rattle.argot_facts.specs.Graphs.{EdgeBefore, IsOrdered};
ghost use Rattle.argot_graph.specs.Order.{key_of, Ascend, HaveSame};

use argot_facts::{Edge, EdgeKind};
use argot_text::Memory;
use rayon::slice::par_sort_by_key;
use std::alloc::Global;
use std::thread::Threads;

/// What an edge is ordered by: its ends, then which kind it is, then the place of its call.
fn key(edge: Edge) -> (u32, u32, u32, u32)
    ensures { result ≡ key_of edge }
{
    match edge.kind {
        EdgeKind::Plain => (edge.from, edge.to, 0, 0),
        EdgeKind::Call(call) => (edge.from, edge.to, 1, call),
        EdgeKind::Return(call) => (edge.from, edge.to, 2, call),
        EdgeKind::Reset => (edge.from, edge.to, 3, 0),
    }
}

/// Sorts edges by their keys.
fn sort(rt: &(impl Threads + Sync), alloc: Global, edges: &mut [Edge]) -> Result<(), Memory>
    ensures same { HaveSame edges.new edges.old }
    ensures ascend { OnOk result (Ascend edges.new) }
{
    match par_sort_by_key(
        rt,
        alloc,
        edges,
        |edge: &Edge| -> (u32, u32, u32, u32)
            ensures { result ≡ key_of edge.now }
        { key(*edge) },
    ) {
        Ok(()) => Ok(()),
        Err(_) => Err(Memory),
    }
}

/// Sorts edges by their keys, with one thread.
fn sort_alone(edges: &mut Vec<Edge>) -> Result<(), Memory>
    ensures same { HaveSame edges.new.items edges.old.items }
    ensures ascend { OnOk result (Ascend edges.new.items) }
{
    edges.sort_by_key(
        |edge: &Edge| -> (u32, u32, u32, u32)
            ensures { result ≡ key_of edge.now }
        { key(*edge) },
    )?;
    Ok(())
}

/// Whether edge k is the one before it.
fn is_repeated(edges: &[Edge], k: usize) -> bool
    requires { k < length edges.now }
    ensures yes { result ≡ true → (j : ℕ) × (k ≡ j + 1) × (slice_get edges.now j ≡ slice_get edges.now k) }
    ensures no { result ≡ false → (j : ℕ) → k ≡ j + 1 → slice_get edges.now j ≡ slice_get edges.now k → ⊥ }
{
    k > 0 && edges[k - 1] == edges[k]
}

/// Edges that ascend, each once.
fn each_once(alloc: Global, edges: &[Edge]) -> Result<Vec<Edge>, Memory>
    requires { Ascend edges.now }
    ensures ordered { IfOk result (λ v. IsOrdered EdgeBefore v.items) }
    ensures same { IfOk result (λ v. HaveSame v.items edges.now) }
{
    let mut kept = Vec::new(alloc);
    for k in 0..edges.len() {
        if !is_repeated(edges, k) {
            kept.push(edges[k])?;
        }
    }
    Ok(kept)
}

/// The edges in order, each once. An error of the sort is want of memory.
pub fn ordered(
    rt: &(impl Threads + Sync),
    alloc: Global,
    edges: &mut Vec<Edge>,
) -> Result<Vec<Edge>, Memory>
    ensures ordered { IfOk result (λ v. IsOrdered EdgeBefore v.items) }
    ensures same { IfOk result (λ v. HaveSame v.items edges.old.items) }
{
    if let Err(fault) = sort(rt, alloc, edges.as_mut_slice()) {
        return Err(fault);
    }
    each_once(alloc, edges.as_slice())
}

/// The same, sorted by the thread that calls.
pub fn ordered_alone(alloc: Global, edges: &mut Vec<Edge>) -> Result<Vec<Edge>, Memory>
    ensures ordered { IfOk result (λ v. IsOrdered EdgeBefore v.items) }
    ensures same { IfOk result (λ v. HaveSame v.items edges.old.items) }
{
    sort_alone(edges)?;
    each_once(alloc, edges.as_slice())
}
