//! From the nodes that a parser wrote, each behind its children, to the list of a tree's nodes in preorder with their links;
//! and how deeply tokens are nested.
//!
//! `link` meets `nodes_from` of argot_tree: it answers the nodes of the trees whose nodes behind their children it was
//! given, each before its children, with the numbers of its first child and of its next sibling. It gives the memory of
//! what it was given back as it goes. `first_too_deep` meets `IsTooDeep`: it finds the first token that is nested deeper
//! than a parser goes. argot_parse stands on both.
#![tactic(auto)]

mod linking;
mod nesting;
mod pending;

pub use linking::link;
pub use nesting::first_too_deep;
