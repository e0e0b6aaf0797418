// What is found.

use crate::nodes::Node;
use argot_text::Sequence;

/// Data of a source reaches an argument of a sink.
#[derive(Clone, Copy, PartialEq)]
pub struct Flow {
    /// The number of the problem.
    pub problem: u32,
    /// The place of the source.
    pub source: u32,
    /// The place of the sink's call.
    pub sink: u32,
    /// The argument's number.
    pub arg: u32,
}

/// How a trace comes to a node.
#[derive(Clone, Copy, PartialEq)]
pub enum HopKind {
    Start,
    Plain,
    Call,
    Return,
    Reset,
}

/// A node of a trace.
#[derive(Clone, Copy, PartialEq)]
pub struct Hop {
    /// The kind of the edge that leads to it.
    pub kind: HopKind,
    /// The node's number.
    pub node: u32,
}

/// A trace, from its start on.
pub type Trace = Sequence<Hop>;

/// Data of an argument comes from a node that nothing leads to.
#[derive(Clone, Copy, PartialEq)]
pub struct Origin {
    /// The number of the problem.
    pub problem: u32,
    /// The number of the node.
    pub node: u32,
    /// The place of the call that is traced back.
    pub point: u32,
    /// The argument's number.
    pub arg: u32,
}

/// Data of a source reaches objects of a site that several goroutines may share.
#[derive(Clone, Copy, PartialEq)]
pub struct EscapePair {
    /// The number of the problem.
    pub problem: u32,
    /// The place of the source.
    pub source: u32,
    /// The site.
    pub site: u32,
}

/// All that is found, with the nodes that traces name and the targets of calls.
#[derive(Drop)]
pub struct Findings {
    /// The nodes of the program.
    pub nodes: Sequence<Node>,
    /// Flows with their traces.
    pub flows: Sequence<(Flow, Trace)>,
    /// Origins with their traces.
    pub origins: Sequence<(Origin, Trace)>,
    /// Escapes.
    pub escapes: Sequence<EscapePair>,
    /// Escaping sites.
    pub sites: Sequence<u32>,
    /// Calls with their targets, in ascending order.
    pub targets: Sequence<(u32, u32)>,
}
