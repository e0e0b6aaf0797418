// Edges led back.
ghost use Rattle.std.specs.Prelude.{◌≡◌, IfOk, map};
ghost use Rattle.argot_facts.specs.Graphs.{turned_kind};
ghost use Rattle.argot_graph.specs.Turning.{turned, IsTurned};

use crate::order::ordered;
use argot_facts::{Edge, EdgeKind, Graph, Node};
use argot_text::{Memory, Sequence};
use std::alloc::Global;
use std::thread::Threads;

/// A call for a return, and a return for a call.
fn turned_kind(kind: EdgeKind) -> EdgeKind
    ensures { result ≡ turned_kind kind }
{
    match kind {
        EdgeKind::Plain => EdgeKind::Plain,
        EdgeKind::Call(call) => EdgeKind::Return(call),
        EdgeKind::Return(call) => EdgeKind::Call(call),
        EdgeKind::Reset => EdgeKind::Reset,
    }
}

/// The edge from its end to its start.
fn turned(edge: Edge) -> Edge
    ensures { result ≡ turned edge }
{
    Edge {
        from: edge.to,
        to: edge.from,
        kind: turned_kind(edge.kind),
    }
}

/// Each edge turned.
fn turned_all(alloc: Global, edges: &[Edge]) -> Result<Vec<Edge>, Memory>
    ensures { IfOk result (λ v. v.items ≡ map turned edges.now) }
{
    let mut all = Vec::with_capacity(alloc, edges.len())?;
    for k in 0..edges.len() {
        all.push(turned(edges[k]))?;
    }
    Ok(all)
}

/// The same nodes.
fn copied(alloc: Global, nodes: &[Node]) -> Result<Vec<Node>, Memory>
    ensures { IfOk result (λ v. v.items ≡ nodes.now) }
{
    let mut all = Vec::with_capacity(alloc, nodes.len())?;
    all.extend_from_slice(nodes)?;
    Ok(all)
}

/// The graph with each edge from its end to its start, calls and returns exchanged: data flows along it to where it came from.
/// Memory comes where there is none for a second list of nodes and of edges. Reps, Horwitz and Sagiv (1995) go backwards so
/// for a demand.
pub fn turn(rt: &(impl Threads + Sync), alloc: Global, graph: &Graph) -> Result<Graph, Memory>
    ensures turned { IfOk result (IsTurned graph.now) }
{
    let nodes = copied(alloc, graph.nodes().as_slice())?;
    let mut edges = turned_all(alloc, graph.edges().as_slice())?;
    let edges = ordered(rt, alloc, &mut edges)?;
    Ok(Graph::from_parts(Sequence::from_vec(nodes), Sequence::from_vec(edges)))
}
