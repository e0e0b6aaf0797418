// The summaries of a graph.
ghost use Rattle.std.specs.Prelude.{◌≡◌, ℕ, [], ◌+◌, ◌≤◌, ◌<◌, ◌^◌, length, IfOk, IfErr};
ghost use Rattle.argot_summary.specs.Finding.{IsWell};
ghost use Rattle.argot_summary.specs.Netted.{AreEnds, AreRising, IsNet};
ghost use Rattle.argot_summary.specs.Stepping.{IsPublished};
ghost use Rattle.argot_facts.specs.Summed.{AreSummaries};
ghost use Rattle.argot_summary.specs.Summed.{AreFacts, HasMany};

use crate::faults::SummaryFault;
use crate::finding::Found;
use crate::follow::Published;
use crate::net::{Net, net_of};
use crate::order::put_in_order;
use crate::rounds::saturate;
use argot_facts::{Edge, Graph, Same, Summaries};
use argot_links::Chains;
use argot_text::{Memory, Sequence};
use std::alloc::Global;

/// No facts, with so many lists to look them up.
fn none_found(alloc: Global, heads: u32) -> Result<Found, Memory>
    requires { 0 < heads }
    ensures well { IfOk result (λ v. IsWell v) }
    ensures none { IfOk result (λ v. v.facts.items ≡ []) }
{
    let members = Chains::new(alloc, heads)?;
    Ok(Found {
        facts: Vec::new(alloc),
        members,
        heads,
    })
}

/// No facts in lists.
fn none_published(alloc: Global, net: &Net) -> Result<Published, Memory>
    ensures published { IfOk result (λ v. IsPublished net.now [] v) }
    ensures none { IfOk result (λ v. v.count ≡ 0) }
{
    let ending = Chains::new(alloc, net.nodes)?;
    let starting = Chains::new(alloc, net.nodes)?;
    Ok(Published {
        ending,
        starting,
        count: 0,
    })
}

/// The facts of edges between so many nodes.
fn facts_of(alloc: Global, edges: &[Edge], nodes: u32) -> Result<Vec<Same>, SummaryFault>
    requires few { length edges.now + 1 < 2 ^ 32 }
    requires ends { AreEnds edges.now nodes }
    requires rising { AreRising edges.now }
    ensures exact { IfOk result (λ v. AreFacts edges.now v.items) }
    ensures few { IfOk result (λ v. length v.items ≤ 16777216) }
    ensures many { IfErr result (HasMany edges.now) }
{
    let Ok(net) = net_of(alloc, edges, nodes) else {
        return Err(SummaryFault::Memory);
    };
    let Ok(mut found) = none_found(alloc, nodes.max(1)) else {
        return Err(SummaryFault::Memory);
    };
    let Ok(mut published) = none_published(alloc, &net) else {
        return Err(SummaryFault::Memory);
    };
    match saturate(&net, &mut found, &mut published) {
        Ok(()) => {
            let Found { facts, .. } = found;
            Ok(facts)
        }
        Err(fault) => Err(fault),
    }
}

/// From which parameter nodes data reaches which nodes within a function and what it calls and comes back from, each
/// with its rank, in order. Pairs comes exactly where there are more than 16,777,216 of these.
pub fn summarise(alloc: Global, graph: &Graph, workers: u16) -> Result<Summaries, SummaryFault>
    requires one { workers ≡ 1 }
    ensures exact { IfOk result (λ v. AreSummaries graph.now.edges v) }
    ensures few { IfOk result (λ v. length v ≤ 16777216) }
    ensures many { IfErr result (HasMany graph.now.edges) }
{
    let _one = workers;
    let edges = graph.edges();
    let Ok(nodes) = u32::try_from(graph.nodes().len()) else {
        return Err(SummaryFault::Memory);
    };
    if edges.len() >= 4294967295 {
        return Err(SummaryFault::Memory);
    }
    let mut facts = facts_of(alloc, edges.as_slice(), nodes)?;
    match put_in_order(&mut facts) {
        Ok(()) => Ok(Sequence::from_vec(facts)),
        Err(_) => Err(SummaryFault::Memory),
    }
}
