// Flows in order, each once.
ghost use Rattle.std.specs.Prelude.{◌≡◌, ◌+◌, ◌<◌, ℕ, IfOk, OnOk, length, slice_get, true, false};
ghost use Rattle.argot_facts.specs.Findings.{FlowBefore};
ghost use Rattle.argot_facts.specs.Graphs.{IsOrdered};
ghost use Rattle.argot_flow_ends.specs.Order.{key_of, Ascend, HaveSame};

use argot_facts::Flow;
use argot_text::Memory;
use rayon::slice::par_sort_by_key;
use std::alloc::Global;
use std::thread::Threads;

/// What a flow is ordered by.
fn key(flow: Flow) -> (u32, u32, u32, u32)
    ensures { result ≡ key_of flow }
{
    (flow.problem, flow.source, flow.sink, flow.arg)
}

/// Sorts flows by their keys.
fn sort(rt: &(impl Threads + Sync), alloc: Global, flows: &mut [Flow]) -> Result<(), Memory>
    ensures same { HaveSame flows.new flows.old }
    ensures ascend { OnOk result (Ascend flows.new) }
{
    match par_sort_by_key(
        rt,
        alloc,
        flows,
        |flow: &Flow| -> (u32, u32, u32, u32)
            ensures { result ≡ key_of flow.now }
        { key(*flow) },
    ) {
        Ok(()) => Ok(()),
        Err(_) => Err(Memory),
    }
}

/// Whether flow k is the one before it.
fn is_repeated(flows: &[Flow], k: usize) -> bool
    requires { k < length flows.now }
    ensures yes { result ≡ true → (j : ℕ) × (k ≡ j + 1) × (slice_get flows.now j ≡ slice_get flows.now k) }
    ensures no { result ≡ false → (j : ℕ) → k ≡ j + 1 → slice_get flows.now j ≡ slice_get flows.now k → ⊥ }
{
    k > 0 && flows[k - 1] == flows[k]
}

/// Flows that ascend, each once.
fn each_once(alloc: Global, flows: &[Flow]) -> Result<Vec<Flow>, Memory>
    requires { Ascend flows.now }
    ensures ordered { IfOk result (λ v. IsOrdered FlowBefore v.items) }
    ensures same { IfOk result (λ v. HaveSame v.items flows.now) }
{
    let mut kept = Vec::new(alloc);
    for k in 0..flows.len() {
        if !is_repeated(flows, k) {
            kept.push(flows[k])?;
        }
    }
    Ok(kept)
}

/// The flows in order, each once. An error of the sort is want of memory.
pub(crate) fn ordered(
    rt: &(impl Threads + Sync),
    alloc: Global,
    flows: &mut Vec<Flow>,
) -> Result<Vec<Flow>, Memory>
    ensures ordered { IfOk result (λ v. IsOrdered FlowBefore v.items) }
    ensures same { IfOk result (λ v. HaveSame v.items flows.old.items) }
{
    if let Err(fault) = sort(rt, alloc, flows.as_mut_slice()) {
        return Err(fault);
    }
    each_once(alloc, flows.as_slice())
}
