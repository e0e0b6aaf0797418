//! The flows of a problem: which sources' data comes to which arguments of sinks.
//!
//! `flows` is exact (`specs/OneProblem.antt` of `argot_facts`): its list has the flows of the problem, each once and in
//! order, and no others. It takes the program with its exact points-to, the graph of the problem with its summaries, and
//! goes over the nodes once, to see which are results of sources and which are of arguments of sinks; then it searches the
//! graph from each of the former (`argot_flow`) and looks which of the latter are reached. What a target counts as is kept
//! in tables by function and by place, so that each look is constant. The flows are put in order by rayon's stable sort.
//! It takes a byte for each place and function, a word for each end, and the memory of the search.
#![tactic(auto)]

mod arguments;
mod ends;
mod finding;
mod links;
mod lists;
mod order;
mod roles;

pub use finding::flows;

#[cfg(test)]
mod tests;
