//! What functions and places are under a problem, as tables: which targets count as functions of one of its lists, and which
//! calls count as nothing.
//!
//! `counted` answers by function whether a target counts as one of a list: a wrapper counts as the method that it calls
//! (`specs/Counting.antt`). `left_out` answers by place whether it is a call by number inside a wrapper. `listed` and `named`
//! turn lists of numbers into flags (`specs/Marking.antt`). With them each look at a target is constant; a table takes a byte
//! a function or a place, and is made in one pass over the program.
#![tactic(auto)]

mod marking;
mod targets;
mod wrapped;

pub use marking::{listed, named};
pub use targets::counted;
pub use wrapped::left_out;
