//! What references refer to, which functions are live, and whom calls call: an inclusion-based points-to analysis (after
//! Andersen) that finds the call graph on the way.
//!
//! `solve` answers the relation of `argot_facts` (`specs/Refers.antt`) as lists, exactly. A `Solver` takes all memory
//! first and then finds the relation without any: rules of `argot_points_rules` are followed over a table of bits until
//! none adds anything, each again only when a row grew at which it looks (`src/worklist.rt`). `specs/Found.antt` has
//! what contracts see of a solver, `specs/Solving.antt` the limits, `specs/Solved.antt` what the tables keep,
//! `specs/Settled.antt` when a rule needn't be followed again, and `specs/Meaning.antt` what the rules say of the
//! relation. The edges of data, escapes and flows are found from what is found here.
#![tactic(auto)]

mod aiming;
mod answer;
mod calls;
mod choosing;
mod hands;
mod leaves;
mod moves;
mod passes;
mod reading;
mod solver;
mod system;
mod targets;
mod uses;
mod worklist;

pub use answer::solve;
pub use argot_points_rules::PointsFault;
pub use solver::Solver;
