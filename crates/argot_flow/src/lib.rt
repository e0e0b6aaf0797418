//! What realizable lists reach from a node of a graph, with ranks.
//!
//! `Reach::new` takes a graph and its summaries, and all memory; `run` searches from a node layer by layer, in the
//! graph of nodes and ways (`specs/Steps`): along edges, and over calls to where data comes back from them. Each rule
//! of the two ways in `argot_facts/specs/Summaries` has one premise of its own kind, so a rank is a number of steps. A
//! run costs what it visits: the visits of the last one are taken back one by one.
#![tactic(auto)]

mod overs;
mod reach;
mod search;

pub use reach::Reach;
