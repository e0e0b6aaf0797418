// The worked graph.
ghost use Rattle.std.specs.Prelude.{◌≡◌, IfOk};
ghost use Rattle.argot_flow_worked.specs.Worked.{call_edges, four_nodes};

use argot_facts::{Edge, EdgeKind, Graph, Node};
use argot_text::{Memory, Sequence};
use std::alloc::Global;

fn leaf(leaf: u32) -> Node
    ensures { result ≡ record { place = 0; index = 0; leaf = leaf } }
{
    Node {
        place: 0,
        index: 0,
        leaf,
    }
}

fn edge(from: u32, to: u32, kind: EdgeKind) -> Edge
    ensures { result ≡ record { from = from; to = to; kind = kind } }
{
    Edge { from, to, kind }
}

fn nodes(alloc: Global) -> Result<Vec<Node>, Memory>
    ensures { IfOk result (λ v. v.items ≡ four_nodes) }
{
    let mut nodes = Vec::new(alloc);
    nodes.push(leaf(0))?;
    nodes.push(leaf(1))?;
    nodes.push(leaf(2))?;
    nodes.push(leaf(3))?;
    Ok(nodes)
}

fn edges(alloc: Global) -> Result<Vec<Edge>, Memory>
    ensures { IfOk result (λ v. v.items ≡ call_edges) }
{
    let mut edges = Vec::new(alloc);
    edges.push(edge(0, 1, EdgeKind::Call(5)))?;
    edges.push(edge(1, 2, EdgeKind::Plain))?;
    edges.push(edge(2, 3, EdgeKind::Return(5)))?;
    edges.push(edge(3, 1, EdgeKind::Call(6)))?;
    Ok(edges)
}

/// A call from node 0 enters at node 1; from node 2 data comes back to it at node 3. From there another call enters.
pub fn graph_of_call(alloc: Global) -> Result<Graph, Memory>
    ensures nodes { IfOk result (λ g. g.nodes ≡ four_nodes) }
    ensures edges { IfOk result (λ g. g.edges ≡ call_edges) }
{
    let nodes = nodes(alloc)?;
    let edges = edges(alloc)?;
    Ok(Graph::from_parts(Sequence::from_vec(nodes), Sequence::from_vec(edges)))
}
