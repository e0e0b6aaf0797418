//! A worked graph: a call that is entered and left again. `graph_of_call` makes it; the tests have its summary facts, what
//! is reached in it and what it is when it is turned, worked out by the rules of `argot_facts` (`specs/Summaries.antt`).
//! Nothing above uses this crate.
#![tactic(auto)]

mod graph;

pub use graph::graph_of_call;

#[cfg(test)]
mod tests;
