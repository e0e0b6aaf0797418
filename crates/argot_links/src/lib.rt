//! Structures linked by index, each with one allocation and none while it is used: lists through one column
//! of links (`Chains`), a queue threaded through the numbers that it holds (`Queue`), for each row a set of
//! columns in packed words (`Rows`), and pairs of numbers by their first one, with bounds (`Runs`).
//!
//! Contracts see `Chains` as its lists (`specs/Chained`), `Queue` as a list of distinct numbers (`specs/Waiting`)
//! `Rows` as ascending lists of columns (`specs/Table`), which clients read by the test `has`, and `Runs` as a list for
//! each first number, in the order of the pairs (`specs/Runs`). `Rows::join`
//! goes by words, and a walk over a row skips its empty words.
#![tactic(auto)]

mod bits;
mod chains;
pub mod laws;
mod queue;
mod rows;
mod runs;
mod words;

pub use chains::{Cell, ChainWalk, Chains, may_be_shared};
pub use queue::Queue;
pub use rows::{RowWalk, Rows};
pub use runs::Runs;

#[cfg(test)]
mod tests;
