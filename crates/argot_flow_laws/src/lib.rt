//! Laws of what flows rest on, as contracts of functions without code, over the edges of any list: realizable lists
//! join exactly what the two ways reach (`lists_and_facts`), a trace stands for such a list (`traces_are_realizable`),
//! a summary fact unfolds to hops (`facts_unfold`), and a node that is reached has a trace
//! (`reached_nodes_have_traces`).
//!
//! The definitions are those of `argot_facts`: lists in `specs/Lists`, facts and ranks in `specs/Summaries`, parents
//! and traces in `specs/Parents`, `specs/Traces` and `specs/Drawing`. `argot_summary` and `argot_flow` cite the lemmas;
//! nothing here runs.
#![tactic(auto)]

pub mod laws;
