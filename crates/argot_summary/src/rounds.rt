// Rounds, until one finds nothing.
ghost use Rattle.std.specs.Prelude.{◌≡◌, ℕ, ◌+◌, ◌≤◌, ◌<◌, length, slice_get, Some, OnOk, IfErr};
ghost use Rattle.argot_summary.specs.Buckets.{AddsItem};
ghost use Rattle.argot_summary.specs.Closing.{HasStarts, HasStart, AreClosed};
ghost use Rattle.argot_summary.specs.Finding.{IsMany};
ghost use Rattle.argot_summary.specs.Netted.{IsNet};
ghost use Rattle.argot_summary.specs.Stepping.{
  AreInside,
  IsState,
  Grows,
  IsReady,
  AreDone,
  AreEnding,
  AreStarting,
  IsPublished,
};

use crate::faults::SummaryFault;
use crate::finding::Found;
use crate::follow::{Published, Round, follow_all, put};
use crate::net::Net;
use argot_facts::EdgeKind;
use argot_links::Chains;
use argot_text::Memory;

/// Makes i the first of that list.
fn list(chains: &mut Chains, head: u32, i: u32) -> Result<(), Memory>
    requires head { head < length chains.old.lists }
    requires few { chains.old.used < 16777216 }
    ensures lists { OnOk result (AddsItem chains.old.lists chains.new.lists head i) }
    ensures used { OnOk result (chains.new.used ≡ chains.old.used + 1) }
{
    chains.reserve(1)?;
    chains.push(head, i);
    Ok(())
}

/// Lists the fact i by the node in which it ends.
fn list_ending(net: &Net, found: &Found, ending: &mut Chains, i: u32) -> Result<(), Memory>
    requires i { i < length found.now.facts.items }
    requires few { i < 16777216 }
    requires inside { AreInside found.now.facts.items net.now.nodes }
    requires ending { AreEnding net.now.nodes found.now.facts.items i ending.old }
    ensures { OnOk result (AreEnding net.now.nodes found.now.facts.items (i + 1) ending.new) }
{
    let _nodes = net.nodes;
    ending.reserve(1)?;
    let fact = found.facts[i as usize];
    ending.push(fact.to, i);
    Ok(())
}

/// Lists the fact i by the node of its parameter, if data leads back from where it ends.
fn list_starting(net: &Net, found: &Found, starting: &mut Chains, i: u32) -> Result<(), Memory>
    requires net { IsNet net.now }
    requires i { i < length found.now.facts.items }
    requires few { i < 16777216 }
    requires inside { AreInside found.now.facts.items net.now.nodes }
    requires starting { AreStarting net.now found.now.facts.items i starting.old }
    ensures { OnOk result (AreStarting net.now found.now.facts.items (i + 1) starting.new) }
{
    let fact = found.facts[i as usize];
    if !net.backs[fact.to as usize] {
        return Ok(());
    }
    list(starting, fact.from, i)
}

/// Lists the next fact.
fn publish_one(net: &Net, found: &Found, published: &mut Published) -> Result<(), Memory>
    requires net { IsNet net.now }
    requires next { published.old.count < length found.now.facts.items }
    requires few { length found.now.facts.items ≤ 16777216 }
    requires inside { AreInside found.now.facts.items net.now.nodes }
    requires published { IsPublished net.now found.now.facts.items published.old }
    ensures published { OnOk result (IsPublished net.now found.now.facts.items published.new) }
    ensures count { OnOk result (published.new.count ≡ published.old.count + 1) }
{
    list_ending(net, found, &mut published.ending, published.count)?;
    list_starting(net, found, &mut published.starting, published.count)?;
    published.count += 1;
    Ok(())
}

/// Lists all facts that there are.
fn publish(net: &Net, found: &Found, published: &mut Published) -> Result<(), Memory>
    requires net { IsNet net.now }
    requires few { length found.now.facts.items ≤ 16777216 }
    requires inside { AreInside found.now.facts.items net.now.nodes }
    requires published { IsPublished net.now found.now.facts.items published.old }
    ensures published { OnOk result (IsPublished net.now found.now.facts.items published.new) }
    ensures count { OnOk result (published.new.count ≡ length found.now.facts.items) }
{
    while (published.count as usize) < found.facts.len() {
        publish_one(net, found, published)?;
    }
    Ok(())
}

/// The end of the edge k reaches itself, if it is a call.
fn begin_at(net: &Net, found: &mut Found, k: usize) -> Result<(), SummaryFault>
    requires net { IsNet net.now }
    requires state { IsState net.now found.old 0 }
    requires few { length found.old.facts.items ≤ 16777216 }
    requires k { k < length net.now.edges.now }
    ensures grows { Grows net.now found.old found.new 0 }
    ensures start { OnOk result (HasStart net.now found.new.facts.items k) }
    ensures few { OnOk result (length found.new.facts.items ≤ 16777216) }
    ensures many { IfErr result (IsMany found.new.facts.items) }
{
    let edge = net.edges[k];
    match edge.kind {
        EdgeKind::Call(_) => put(net, found, edge.to, edge.to, 0),
        _ => Ok(()),
    }
}

/// Each node in which a call ends reaches itself.
fn begin(net: &Net, found: &mut Found) -> Result<(), SummaryFault>
    requires net { IsNet net.now }
    requires state { IsState net.now found.old 0 }
    requires few { length found.old.facts.items ≤ 16777216 }
    ensures grows { Grows net.now found.old found.new 0 }
    ensures starts { OnOk result (HasStarts net.now found.new.facts.items) }
    ensures few { OnOk result (length found.new.facts.items ≤ 16777216) }
    ensures many { IfErr result (IsMany found.new.facts.items) }
{
    for k in 0..net.edges.len() {
        begin_at(net, found, k)?;
    }
    Ok(())
}

/// What the facts from this number on give, with all.
fn round(
    net: &Net,
    found: &mut Found,
    published: &Published,
    first: u32,
    rank: u32,
) -> Result<(), SummaryFault>
    requires ready { IsReady net.now found.old published.now rank }
    requires few { length found.old.facts.items ≤ 16777216 }
    ensures grows { Grows net.now found.old found.new rank }
    ensures closed { OnOk result (AreDone net.now found.new.facts.items published.now.count first rank) }
    ensures few { OnOk result (length found.new.facts.items ≤ 16777216) }
    ensures many { IfErr result (IsMany found.new.facts.items) }
{
    let round = Round {
        net,
        published,
        rank,
    };
    follow_all(&round, found, first)
}

/// Rounds, until one finds nothing.
pub(crate) fn saturate(
    net: &Net,
    found: &mut Found,
    published: &mut Published,
) -> Result<(), SummaryFault>
    requires net { IsNet net.now }
    requires state { IsState net.now found.old 0 }
    requires few { length found.old.facts.items ≤ 16777216 }
    requires published { IsPublished net.now found.old.facts.items published.old }
    requires none { published.old.count ≡ 0 }
    requires empty { length found.old.facts.items ≡ 0 }
    ensures state { (k : ℕ) × IsState net.now found.new k }
    ensures starts { OnOk result (HasStarts net.now found.new.facts.items) }
    ensures closed { OnOk result (AreClosed net.now found.new.facts.items (length found.new.facts.items)) }
    ensures few { OnOk result (length found.new.facts.items ≤ 16777216) }
    ensures many { IfErr result (IsMany found.new.facts.items) }
{
    begin(net, found)?;
    let mut first = 0;
    let mut rank = 1;
    let Ok(_) = publish(net, found, published) else {
        return Err(SummaryFault::Memory);
    };
    while first < published.count {
        round(net, found, published, first, rank)?;
        first = published.count;
        rank += 1;
        let Ok(_) = publish(net, found, published) else {
            return Err(SummaryFault::Memory);
        };
    }
    Ok(())
}
