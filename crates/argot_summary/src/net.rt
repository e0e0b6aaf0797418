// The edges of a graph, by the nodes from which they lead and by their calls.
ghost use Rattle.std.specs.Prelude.{
  ◌≡◌,
  ◌+◌,
  ◌<◌,
  ◌^◌,
  length,
  slice_get,
  Some,
  IfOk,
  OnOk,
  IfSome,
  IsNone,
};
ghost use Rattle.argot_facts.specs.declared.graphs.Edge.{Edge as Edges};
ghost use Rattle.argot_summary.specs.Stepping.{Edged};
ghost use Rattle.argot_summary.specs.Netted.{
  AreEnds,
  AreRising,
  AreStarts,
  AreFilled,
  HasCalls,
  HasReturns,
  HasBacks,
  IsNet,
  IsNoCall,
  IsNoReturn,
};

use crate::buckets::slot;
use argot_facts::{Edge, EdgeKind};
use argot_links::Chains;
use argot_text::Memory;
use std::alloc::Global;

/// Edges in order; where those of each node begin; which nodes have a return edge; calls and returns by node and place.
#[derive(Drop)]
pub struct Net<'a> {
    pub edges: &'a [Edge],
    pub nodes: u32,
    pub starts: Vec<u32>,
    pub backs: Vec<bool>,
    pub calls: Chains,
    pub returns: Chains,
    pub heads: u32,
}

/// Up to this node the edges begin at k.
fn fill(starts: &mut Vec<u32>, node: u32, k: u32) -> Result<(), Memory>
    ensures { OnOk result (AreFilled starts.old.items starts.new.items node k) }
{
    while starts.len() <= node as usize {
        starts.push(k)?;
    }
    Ok(())
}

/// Where the edges of each node begin.
fn starts_of(alloc: Global, edges: &[Edge], nodes: u32) -> Result<Vec<u32>, Memory>
    requires few { length edges.now < 2 ^ 32 }
    requires ends { AreEnds edges.now nodes }
    requires rising { AreRising edges.now }
    ensures { IfOk result (λ v. AreStarts edges.now nodes v.items) }
{
    let mut starts = Vec::new(alloc);
    for k in 0..edges.len() {
        fill(&mut starts, edges[k].from, k as u32)?;
    }
    fill(&mut starts, nodes, edges.len() as u32)?;
    Ok(starts)
}

/// Which nodes have a return edge.
fn backs_of(alloc: Global, edges: &[Edge], nodes: u32) -> Result<Vec<bool>, Memory>
    requires ends { AreEnds edges.now nodes }
    ensures { IfOk result (λ v. HasBacks edges.now nodes v.items) }
{
    let mut backs = vec![in alloc; false; nodes as usize]?;
    for k in 0..edges.len() {
        let edge = edges[k];
        if let EdgeKind::Return(_) = edge.kind {
            backs[edge.from as usize] = true;
        }
    }
    Ok(backs)
}

/// The call edges, by node and place.
fn calls_of(alloc: Global, edges: &[Edge], heads: u32) -> Result<Chains, Memory>
    requires few { length edges.now < 2 ^ 32 }
    requires heads { 0 < heads }
    ensures { IfOk result (λ v. HasCalls edges.now heads v.lists) }
{
    let mut calls = Chains::new(alloc, heads)?;
    calls.reserve(edges.len() as u32)?;
    for k in 0..edges.len() {
        let edge = edges[k];
        if let EdgeKind::Call(c) = edge.kind {
            calls.push(slot(edge.to, c, heads), k as u32);
        }
    }
    Ok(calls)
}

/// The return edges, by node and place.
fn returns_of(alloc: Global, edges: &[Edge], heads: u32) -> Result<Chains, Memory>
    requires few { length edges.now < 2 ^ 32 }
    requires heads { 0 < heads }
    ensures { IfOk result (λ v. HasReturns edges.now heads v.lists) }
{
    let mut returns = Chains::new(alloc, heads)?;
    returns.reserve(edges.len() as u32)?;
    for k in 0..edges.len() {
        let edge = edges[k];
        if let EdgeKind::Return(c) = edge.kind {
            returns.push(slot(edge.from, c, heads), k as u32);
        }
    }
    Ok(returns)
}

/// The edges of a graph with so many nodes. Takes all memory.
pub fn net_of<'a>(alloc: Global, edges: &'a [Edge], nodes: u32) -> Result<Net<'a>, Memory>
    requires few { length edges.now + 1 < 2 ^ 32 }
    requires ends { AreEnds edges.now nodes }
    requires rising { AreRising edges.now }
    ensures net { IfOk result (λ v. IsNet v) }
    ensures edges { IfOk result (λ v. v.edges.now ≡ edges.now) }
    ensures nodes { IfOk result (λ v. v.nodes ≡ nodes) }
{
    let heads = edges.len() as u32 + 1;
    let starts = starts_of(alloc, edges, nodes)?;
    let backs = backs_of(alloc, edges, nodes)?;
    let calls = calls_of(alloc, edges, heads)?;
    let returns = returns_of(alloc, edges, heads)?;
    Ok(Net {
        edges,
        nodes,
        starts,
        backs,
        calls,
        returns,
        heads,
    })
}

/// Where the edge k ends, if it is the return from l to the call at c.
pub fn return_end(net: &Net, l: u32, c: u32, k: u32) -> Option<u32>
    requires net { IsNet net.now }
    requires k { k < length net.now.edges.now }
    ensures edge { IfSome result (λ n. Edged net.now l (EdgeKind.Return c) n) }
    ensures inside { IfSome result (λ n. n < net.now.nodes) }
    ensures end { IfSome result (λ n. (e : Edges) → slice_get net.now.edges.now k ≡ Some e → e.to ≡ n) }
    ensures none { IsNone result → IsNoReturn net.now.edges.now k l c }
{
    let edge = net.edges[k as usize];
    let EdgeKind::Return(d) = edge.kind else {
        return None;
    };
    if d != c {
        return None;
    }
    if edge.from != l {
        return None;
    }
    Some(edge.to)
}

/// Where the edge k begins, if it is the call at c to q.
pub fn call_start(net: &Net, q: u32, c: u32, k: u32) -> Option<u32>
    requires net { IsNet net.now }
    requires k { k < length net.now.edges.now }
    ensures edge { IfSome result (λ m. Edged net.now m (EdgeKind.Call c) q) }
    ensures inside { IfSome result (λ m. m < net.now.nodes) }
    ensures start { IfSome result (λ m. (e : Edges) → slice_get net.now.edges.now k ≡ Some e → e.from ≡ m) }
    ensures none { IsNone result → IsNoCall net.now.edges.now k q c }
{
    let edge = net.edges[k as usize];
    let EdgeKind::Call(d) = edge.kind else {
        return None;
    };
    if d != c {
        return None;
    }
    if edge.to != q {
        return None;
    }
    Some(edge.from)
}
