// Edges between nodes, which are known by their numbers in node order.

ghost use Rattle.std.specs.Prelude.{◌≡◌};
ghost use Rattle.argot_facts.specs.Graphs.{IsGraph};

use crate::nodes::Node;
use argot_text::Sequence;
use std::marker::Model;

/// What an edge does to the open calls.
#[derive(Clone, Copy, PartialEq)]
pub enum EdgeKind {
    /// Data stays in its function.
    Plain,
    /// Data enters by the call at this place.
    Call(u32),
    /// Data returns to the call at this place.
    Return(u32),
    /// Data moves through an object or into a goroutine.
    Reset,
}

/// An edge between two nodes.
#[derive(Clone, Copy, PartialEq)]
pub struct Edge {
    /// The number of the node where it begins.
    pub from: u32,
    /// The number of the node where it ends.
    pub to: u32,
    /// Its kind.
    pub kind: EdgeKind,
}

/// The nodes of a program in node order, and the edges of a problem, ordered and without doubles.
#[derive(Drop)]
pub struct Graph {
    nodes: Sequence<Node>,
    edges: Sequence<Edge>,
}

impl Model for Graph {
    ghost use Rattle.argot_facts.specs.Graphs.{Drawn};

    ghost Value = { Drawn };

    ghost use Rattle.argot_facts.specs.Graphs.{IsGraph};

    ghost view = { λ g. record { nodes = g.nodes; edges = g.edges } };

    ghost invariant = { λ g. IsGraph (record { nodes = g.nodes; edges = g.edges }) };
}

impl Graph {
    /// The graph of these nodes and edges.
    pub fn from_parts(nodes: Sequence<Node>, edges: Sequence<Edge>) -> Graph
        requires { IsGraph (record { nodes = nodes; edges = edges }) }
        ensures { result ≡ record { nodes = nodes; edges = edges } }
    {
        Graph { nodes, edges }
    }

    /// Its nodes, in node order.
    pub fn nodes(&self) -> &Vec<Node>
        ensures nodes { result.now.items ≡ self.now.nodes }
        ensures well { IsGraph self.now }
    {
        self.nodes.as_vec()
    }

    /// Its edges, by their ends and then by kind.
    pub fn edges(&self) -> &Vec<Edge>
        ensures edges { result.now.items ≡ self.now.edges }
        ensures well { IsGraph self.now }
    {
        self.edges.as_vec()
    }
}
