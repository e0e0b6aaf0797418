//! Rules that ask.
//!
//! A rule is data (`specs/Rules`): it asks rows of a table for their facts, in stages, and says a fact in the end. What the
//! rules say is the least relation that is closed under them, so nothing in it goes by an order of work, and no rule can
//! look at whether a row has no fact. `specs/Needs` has the rows that a row needs. The crates of typing above give rows,
//! facts and rules. There is no code here, and nothing runs: the functions of `laws` say what holds of all such rules.
#![tactic(auto)]

pub mod laws;
