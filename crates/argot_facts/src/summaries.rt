// Summaries of functions.

use argot_text::Sequence;

/// The data at a parameter reaches a node within the function and what it calls and comes back from.
#[derive(Clone, Copy, PartialEq)]
pub struct Same {
    /// The number of the parameter's node.
    pub from: u32,
    /// The number of the node that it reaches.
    pub to: u32,
    /// The round in which that is found first.
    pub rank: u32,
}

/// All such facts of a graph.
pub type Summaries = Sequence<Same>;
