// What one fact gives.
ghost use Rattle.std.specs.Prelude.{◌≡◌, ◌≤◌, ◌<◌, ℕ, length, slice_get, Some, OnOk, IfErr};
ghost use Rattle.argot_facts.specs.declared.graphs.Edge.{Edge as Edges};
ghost use Rattle.argot_summary.specs.Finding.{IsThere, IsMany};
ghost use Rattle.argot_summary.specs.Netted.{IsNet};
ghost use Rattle.argot_summary.specs.Stepping.{IsWithin, IsState, Grows};
ghost use Rattle.argot_summary.specs.Rules.{
  InRound,
  Finds,
  ComesBack,
  HasBack,
  HasBackAt,
  ReachesOver,
  HasOver,
  Passes,
  HasPassed,
  PassesUp,
  HasPassedUp,
  HasPassedUpAt,
  HasGivenAt,
  HasGivenAll,
  HasGivenFrom,
};

use crate::buckets::slot;
use crate::faults::SummaryFault;
use crate::finding::{Found, add};
use crate::net::{Net, call_start, return_end};
use argot_facts::{EdgeKind, Same};
use argot_links::Chains;

/// The facts of earlier rounds: by the node in which they end, and by the parameter's node where data leads back.
#[derive(Drop)]
pub(crate) struct Published {
    pub ending: Chains,
    pub starting: Chains,
    pub count: u32,
}

/// A round: the edges, the facts of earlier rounds, and the rank of the facts that it finds.
#[derive(Drop)]
pub(crate) struct Round<'a> {
    pub net: &'a Net<'a>,
    pub published: &'a Published,
    pub rank: u32,
}

/// A node beside a call: the parameter that it enters at, or the node that data comes back from.
#[derive(Clone, Copy)]
pub(crate) struct Side {
    pub node: u32,
    pub call: u32,
}

/// Adds a fact that a rule gives, if it isn't there.
pub(crate) fn put(
    net: &Net,
    found: &mut Found,
    from: u32,
    to: u32,
    rank: u32,
) -> Result<(), SummaryFault>
    requires state { IsState net.now found.old rank }
    requires few { length found.old.facts.items ≤ 16777216 }
    requires from { from < net.now.nodes }
    requires to { to < net.now.nodes }
    requires rule { IsWithin net.now from rank to }
    ensures grows { Grows net.now found.old found.new rank }
    ensures there { OnOk result (IsThere found.new.facts.items from to rank) }
    ensures few { OnOk result (length found.new.facts.items ≤ 16777216) }
    ensures many { IfErr result (IsMany found.new.facts.items) }
{
    let _nodes = net.nodes;
    add(found, from, to, rank)
}

/// Where the edge k ends, if it comes back from the exit to its call, is reached from p.
fn hand_back(
    round: &Round,
    found: &mut Found,
    p: u32,
    exit: Side,
    k: u32,
) -> Result<(), SummaryFault>
    requires net { IsNet round.now.net.now }
    requires state { IsState round.now.net.now found.old round.now.rank }
    requires few { length found.old.facts.items ≤ 16777216 }
    requires p { p < round.now.net.now.nodes }
    requires k { k < length round.now.net.now.edges.now }
    requires rule { ComesBack round.now p exit }
    ensures grows { Finds round.now found.old found.new }
    ensures closed { OnOk result (HasBackAt round.now found.new.facts.items p exit k) }
    ensures few { OnOk result (length found.new.facts.items ≤ 16777216) }
    ensures many { IfErr result (IsMany found.new.facts.items) }
{
    match return_end(round.net, exit.node, exit.call, k) {
        Some(n) => put(round.net, found, p, n, round.rank),
        None => Ok(()),
    }
}

/// What comes back from the exit to its call is reached from p.
fn hand_all(round: &Round, found: &mut Found, p: u32, exit: Side) -> Result<(), SummaryFault>
    requires net { IsNet round.now.net.now }
    requires state { IsState round.now.net.now found.old round.now.rank }
    requires few { length found.old.facts.items ≤ 16777216 }
    requires p { p < round.now.net.now.nodes }
    requires rule { ComesBack round.now p exit }
    ensures grows { Finds round.now found.old found.new }
    ensures closed { OnOk result (HasBack round.now found.new.facts.items p exit) }
    ensures few { OnOk result (length found.new.facts.items ≤ 16777216) }
    ensures many { IfErr result (IsMany found.new.facts.items) }
{
    for k in round
        .net
        .returns
        .walk(slot(exit.node, exit.call, round.net.heads))
    {
        hand_back(round, found, p, exit, k)?;
    }
    Ok(())
}

/// What comes back from behind the entry is reached from p.
fn descend(round: &Round, found: &mut Found, p: u32, entry: Side) -> Result<(), SummaryFault>
    requires ready { InRound round.now found.old }
    requires few { length found.old.facts.items ≤ 16777216 }
    requires p { p < round.now.net.now.nodes }
    requires entry { entry.node < round.now.net.now.nodes }
    requires rule { ReachesOver round.now p entry }
    ensures grows { Finds round.now found.old found.new }
    ensures closed { OnOk result (HasOver round.now found.new.facts.items p entry) }
    ensures few { OnOk result (length found.new.facts.items ≤ 16777216) }
    ensures many { IfErr result (IsMany found.new.facts.items) }
{
    for j in round.published.starting.walk(entry.node) {
        let node = found.facts[j as usize].to;
        let call = entry.call;
        hand_all(round, found, p, Side { node, call })?;
    }
    Ok(())
}

/// Whatever reaches m reaches n.
fn spread(round: &Round, found: &mut Found, m: u32, n: u32) -> Result<(), SummaryFault>
    requires ready { InRound round.now found.old }
    requires few { length found.old.facts.items ≤ 16777216 }
    requires m { m < round.now.net.now.nodes }
    requires n { n < round.now.net.now.nodes }
    requires rule { Passes round.now m n }
    ensures grows { Finds round.now found.old found.new }
    ensures closed { OnOk result (HasPassed round.now found.new.facts.items m n) }
    ensures few { OnOk result (length found.new.facts.items ≤ 16777216) }
    ensures many { IfErr result (IsMany found.new.facts.items) }
{
    for i in round.published.ending.walk(m) {
        let from = found.facts[i as usize].from;
        put(round.net, found, from, n, round.rank)?;
    }
    Ok(())
}

/// Whatever reaches the start of the edge k reaches n, if that is the call to the entry.
fn ascend_at(
    round: &Round,
    found: &mut Found,
    entry: Side,
    n: u32,
    k: u32,
) -> Result<(), SummaryFault>
    requires ready { InRound round.now found.old }
    requires few { length found.old.facts.items ≤ 16777216 }
    requires n { n < round.now.net.now.nodes }
    requires k { k < length round.now.net.now.edges.now }
    requires rule { PassesUp round.now entry n }
    ensures grows { Finds round.now found.old found.new }
    ensures closed { OnOk result (HasPassedUpAt round.now found.new.facts.items entry n k) }
    ensures few { OnOk result (length found.new.facts.items ≤ 16777216) }
    ensures many { IfErr result (IsMany found.new.facts.items) }
{
    match call_start(round.net, entry.node, entry.call, k) {
        Some(m) => spread(round, found, m, n),
        None => Ok(()),
    }
}

/// Whatever reaches a node from which the call leads to the entry reaches n.
fn ascend(round: &Round, found: &mut Found, entry: Side, n: u32) -> Result<(), SummaryFault>
    requires ready { InRound round.now found.old }
    requires few { length found.old.facts.items ≤ 16777216 }
    requires n { n < round.now.net.now.nodes }
    requires rule { PassesUp round.now entry n }
    ensures grows { Finds round.now found.old found.new }
    ensures closed { OnOk result (HasPassedUp round.now found.new.facts.items entry n) }
    ensures few { OnOk result (length found.new.facts.items ≤ 16777216) }
    ensures many { IfErr result (IsMany found.new.facts.items) }
{
    for k in round
        .net
        .calls
        .walk(slot(entry.node, entry.call, round.net.heads))
    {
        ascend_at(round, found, entry, n, k)?;
    }
    Ok(())
}

/// What the fact gives along the edge k.
fn follow_edge(round: &Round, found: &mut Found, fact: Same, k: u32) -> Result<(), SummaryFault>
    requires ready { InRound round.now found.old }
    requires few { length found.old.facts.items ≤ 16777216 }
    requires within { IsWithin round.now.net.now fact.from fact.rank fact.to }
    requires older { fact.rank < round.now.rank }
    requires from { fact.from < round.now.net.now.nodes }
    requires k { k < length round.now.net.now.edges.now }
    requires leads { (e : Edges) → slice_get round.now.net.now.edges.now k ≡ Some e → e.from ≡ fact.to }
    ensures grows { Finds round.now found.old found.new }
    ensures closed { OnOk result (HasGivenAt round.now found.new.facts.items fact k) }
    ensures few { OnOk result (length found.new.facts.items ≤ 16777216) }
    ensures many { IfErr result (IsMany found.new.facts.items) }
{
    let edge = round.net.edges[k as usize];
    match edge.kind {
        EdgeKind::Plain => put(round.net, found, fact.from, edge.to, round.rank),
        EdgeKind::Call(call) => {
            let node = edge.to;
            descend(round, found, fact.from, Side { node, call })
        }
        EdgeKind::Return(call) => {
            let node = fact.from;
            ascend(round, found, Side { node, call }, edge.to)
        }
        EdgeKind::Reset => Ok(()),
    }
}

/// What the fact gives.
fn follow(round: &Round, found: &mut Found, fact: Same) -> Result<(), SummaryFault>
    requires ready { InRound round.now found.old }
    requires few { length found.old.facts.items ≤ 16777216 }
    requires within { IsWithin round.now.net.now fact.from fact.rank fact.to }
    requires older { fact.rank < round.now.rank }
    requires from { fact.from < round.now.net.now.nodes }
    requires to { fact.to < round.now.net.now.nodes }
    ensures grows { Finds round.now found.old found.new }
    ensures closed { OnOk result (HasGivenAll round.now found.new.facts.items fact) }
    ensures few { OnOk result (length found.new.facts.items ≤ 16777216) }
    ensures many { IfErr result (IsMany found.new.facts.items) }
{
    let first = round.net.starts[fact.to as usize];
    let end = round.net.starts[fact.to as usize + 1];
    for k in first..end {
        follow_edge(round, found, fact, k)?;
    }
    Ok(())
}

/// What the facts from this number on give, with all of earlier rounds.
pub(crate) fn follow_all(round: &Round, found: &mut Found, first: u32) -> Result<(), SummaryFault>
    requires ready { InRound round.now found.old }
    requires few { length found.old.facts.items ≤ 16777216 }
    ensures grows { Finds round.now found.old found.new }
    ensures closed { OnOk result (HasGivenFrom round.now found.new.facts.items first) }
    ensures few { OnOk result (length found.new.facts.items ≤ 16777216) }
    ensures many { IfErr result (IsMany found.new.facts.items) }
{
    for i in first..round.published.count {
        let fact = found.facts[i as usize];
        follow(round, found, fact)?;
    }
    Ok(())
}
