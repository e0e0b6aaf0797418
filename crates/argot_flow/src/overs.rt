// What calls lead over: from a node with a call edge to where data comes back to that call.
ghost use Rattle.std.specs.Prelude.{◌≡◌, ℕ, ◌<◌, length, slice_get, Some, IfOk, OnOk};
ghost use Rattle.argot_facts.specs.declared.graphs.Edge.{Edge as Edges};
ghost use Rattle.argot_facts.specs.Summaries.{IsSame};
ghost use Rattle.argot_facts.specs.Reached.{IsEdgeIn};
ghost use Rattle.argot_summary.specs.Buckets.{AddsItem};
ghost use Rattle.argot_summary.specs.Netted.{IsNet};
ghost use Rattle.argot_facts.specs.Summed.{AreSummaries};
ghost use Rattle.argot_flow.specs.Overs.{
  AreOvers,
  NotesOvers,
  HasOvers,
  LeadsOver,
  ListsCall,
  ListsCallAt,
  ListsReturnAt,
  ListsReturns,
};

use argot_facts::{EdgeKind, Same};
use argot_links::Chains;
use argot_summary::buckets::slot;
use argot_summary::net::{Net, call_start};
use argot_text::Memory;
use std::alloc::Global;

/// The parameter's node at which a call enters.
#[derive(Clone, Copy)]
pub(crate) struct Entry {
    pub node: u32,
    pub call: u32,
}

/// Makes i the first of that list.
fn list(chains: &mut Chains, head: u32, i: u32) -> Result<(), Memory>
    requires { head < length chains.old.lists }
    ensures { OnOk result (AddsItem chains.old.lists chains.new.lists head i) }
{
    if chains.len() >= 4294967294 {
        return Err(Memory);
    }
    chains.reserve(1)?;
    chains.push(head, i);
    Ok(())
}

/// Lists n for the start of the edge k, if that is the call to the entry.
fn note_over(net: &Net, overs: &mut Chains, entry: Entry, n: u32, k: u32) -> Result<(), Memory>
    requires net { IsNet net.now }
    requires overs { AreOvers net.now overs.old.lists }
    requires n { n < net.now.nodes }
    requires k { k < length net.now.edges.now }
    requires rule { LeadsOver net.now entry n }
    ensures notes { OnOk result (NotesOvers net.now overs.old.lists overs.new.lists) }
    ensures closed { OnOk result (ListsCallAt net.now overs.new.lists entry n k) }
{
    match call_start(net, entry.node, entry.call, k) {
        Some(m) => list(overs, m, n),
        None => Ok(()),
    }
}

/// Lists n for each node from which the call leads to the entry.
fn note_calls(net: &Net, overs: &mut Chains, entry: Entry, n: u32) -> Result<(), Memory>
    requires net { IsNet net.now }
    requires overs { AreOvers net.now overs.old.lists }
    requires n { n < net.now.nodes }
    requires rule { LeadsOver net.now entry n }
    ensures notes { OnOk result (NotesOvers net.now overs.old.lists overs.new.lists) }
    ensures closed { OnOk result (ListsCall net.now overs.new.lists entry n) }
{
    for k in net.calls.walk(slot(entry.node, entry.call, net.heads)) {
        note_over(net, overs, entry, n, k)?;
    }
    Ok(())
}

/// Lists where the edge k ends, if it is a return, for each node from which its call leads to the start of the fact.
fn note_edge(net: &Net, overs: &mut Chains, fact: Same, k: u32) -> Result<(), Memory>
    requires net { IsNet net.now }
    requires overs { AreOvers net.now overs.old.lists }
    requires k { k < length net.now.edges.now }
    requires leads { (e : Edges) → slice_get net.now.edges.now k ≡ Some e → e.from ≡ fact.to }
    requires fact { IsSame (IsEdgeIn net.now.edges.now) fact.from fact.to }
    ensures notes { OnOk result (NotesOvers net.now overs.old.lists overs.new.lists) }
    ensures closed { OnOk result (ListsReturnAt net.now overs.new.lists fact k) }
{
    let edge = net.edges[k as usize];
    match edge.kind {
        EdgeKind::Return(call) => {
            let node = fact.from;
            note_calls(net, overs, Entry { node, call }, edge.to)
        }
        _ => Ok(()),
    }
}

/// Lists all to which the fact leads over.
fn note_fact(net: &Net, overs: &mut Chains, fact: Same) -> Result<(), Memory>
    requires net { IsNet net.now }
    requires overs { AreOvers net.now overs.old.lists }
    requires to { fact.to < net.now.nodes }
    requires fact { IsSame (IsEdgeIn net.now.edges.now) fact.from fact.to }
    ensures notes { OnOk result (NotesOvers net.now overs.old.lists overs.new.lists) }
    ensures closed { OnOk result (ListsReturns net.now overs.new.lists fact) }
{
    let first = net.starts[fact.to as usize];
    let end = net.starts[fact.to as usize + 1];
    for k in first..end {
        note_edge(net, overs, fact, k)?;
    }
    Ok(())
}

/// What calls lead over, by node.
pub(crate) fn overs_of(alloc: Global, net: &Net, facts: &[Same]) -> Result<Chains, Memory>
    requires net { IsNet net.now }
    requires exact { AreSummaries net.now.edges.now facts.now }
    ensures { IfOk result (λ v. HasOvers net.now v.lists) }
{
    let mut overs = Chains::new(alloc, net.nodes)?;
    for i in 0..facts.len() {
        note_fact(net, &mut overs, facts[i])?;
    }
    Ok(overs)
}
