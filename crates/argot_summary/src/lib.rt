//! Summaries: from which parameter nodes data reaches which nodes within a function and what it calls and comes back
//! from, each with the round in which it is found first.
//!
//! `summarise` meets `AreSummaries` of `argot_facts/specs/Summed`: the list has exactly the facts that stand by the
//! rules of `specs/Summaries` there, with their ranks, in order. It goes round by round: what the last round found is
//! followed along the edges of its end (`follow`), together with all that was found before. A fact is looked at in one
//! round, so the work is that of the uses of the rules, each met once or twice; memory is in proportion to facts and
//! edges.
//!
//! `net` has the edges of a graph by node and call, for the searches of `argot_flow` too.
#![tactic(auto)]

pub mod buckets;
mod faults;
mod finding;
mod follow;
pub mod net;
mod order;
mod rounds;
mod sums;

pub use faults::SummaryFault;
pub use sums::summarise;
