//! The facts that the analysis computes of a program: which definitions reach a place, what nodes and
//! locations refer to, which sites escape, which place may follow which, along which edges data moves,
//! and the flows, traces and origins that follow from these. `specs/` gives each as a relation; the
//! crates above compute them, and their contracts name the relations of this crate.
#![tactic(auto)]

mod findings;
mod graphs;
pub mod laws;
mod marks;
mod nodes;
mod pointing;
mod sharing;
mod summaries;

pub use findings::{EscapePair, Findings, Flow, Hop, HopKind, Origin, Trace};
pub use graphs::{Edge, EdgeKind, Graph};
pub use marks::{is_marked, mark};
pub use nodes::{Defs, Node, Nodes};
pub use pointing::{Loc, Points, PointsParts, Spot};
pub use sharing::may_be_shared;
pub use summaries::{Same, Summaries};
