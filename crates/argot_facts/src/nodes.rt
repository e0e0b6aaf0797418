// Nodes, their numbers, and the definitions that reach places.
ghost use Rattle.std.specs.Prelude.{◌≡◌, ℕ, ◌<◌, ◌≤◌, Some, length, slice_get, IsTrue, IfSome, IsNone};
ghost use Rattle.argot_facts.specs.Graphs.{IsBefore, IsOrdered};
ghost use Rattle.argot_facts.specs.declared.nodes.Node.{Node as NodeValue};

use argot_text::Sequence;
use std::marker::Model;

/// A leaf of a result, handed value, parameter, written or copied value at a place.
#[derive(Clone, Copy, PartialEq)]
pub struct Node {
    /// The place.
    pub place: u32,
    /// Which result, handed value or parameter of the place it is.
    pub index: u32,
    /// The number of its leaf.
    pub leaf: u32,
}

/// The definitions that reach places: triples of a definition's place, a place and a register that the place reads.
pub type Defs = Sequence<(u32, u32, u32)>;

/// Nodes in node order, each known by its number.
#[derive(Drop)]
pub struct Nodes {
    list: Vec<Node>,
}

impl Model for Nodes {
    ghost use Rattle.std.specs.Prelude.{List, length, ◌≤◌};
    ghost use Rattle.argot_facts.specs.Graphs.{IsBefore, IsOrdered};
    ghost use Rattle.argot_facts.specs.declared.nodes.Node.{Node as NodeValue};

    ghost Value = { List NodeValue };

    ghost view = { λ a. a.list.items };

    ghost invariant = { λ a. IsOrdered IsBefore a.list.items };
}

/// Whether the first node stands before the second.
fn stands_before(a: Node, b: Node) -> bool
    ensures yes { IsTrue result → IsBefore a b }
    ensures no { IsBefore a b → IsTrue result }
{
    if a.place != b.place {
        return a.place < b.place;
    }
    if a.index != b.index {
        return a.index < b.index;
    }
    a.leaf < b.leaf
}

fn first_from(nodes: &[Node], node: Node) -> usize
    requires { IsOrdered IsBefore nodes.now }
    ensures inside { result ≤ length nodes.now }
    ensures before { (m : ℕ) (a : NodeValue) → slice_get nodes.now m ≡ Some a → m < result → IsBefore a node }
    ensures behind { (m : ℕ) (a : NodeValue) → slice_get nodes.now m ≡ Some a → result ≤ m → IsBefore a node → ⊥ }
{
    let mut low = 0;
    let mut high = nodes.len();
    while low < high {
        let middle = low + (high - low) / 2;
        if stands_before(nodes[middle], node) {
            low = middle + 1;
        } else {
            high = middle;
        }
    }
    low
}

impl Nodes {
    /// These nodes, which stand in order.
    pub fn from_vec(list: Vec<Node>) -> Nodes
        requires { IsOrdered IsBefore list.items }
        ensures { result ≡ list.items }
    {
        Nodes { list }
    }

    /// The nodes as a list.
    pub fn as_slice(&self) -> &[Node]
        ensures list { result.now ≡ self.now }
        ensures ordered { IsOrdered IsBefore self.now }
    {
        self.list.as_slice()
    }

    /// How many there are.
    pub fn len(&self) -> usize
        ensures { result ≡ length self.now }
    {
        self.list.len()
    }

    /// The node of a number.
    pub fn node(&self, number: u32) -> Node
        requires { number < length self.now }
        ensures { slice_get self.now number ≡ Some result }
    {
        self.list[number as usize]
    }

    /// The number of the first node that doesn't stand before this one, or how many nodes there are. A search by halves.
    pub fn first_from(&self, node: Node) -> usize
        ensures inside { result ≤ length self.now }
        ensures before { (m : ℕ) (a : NodeValue) → slice_get self.now m ≡ Some a → m < result → IsBefore a node }
        ensures behind { (m : ℕ) (a : NodeValue) → slice_get self.now m ≡ Some a → result ≤ m → IsBefore a node → ⊥ }
    {
        first_from(self.list.as_slice(), node)
    }
}
