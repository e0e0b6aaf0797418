//! Control order: which place that reads memory may come after which one that writes it, in one goroutine. `control` answers
//! for a program and its points-to, and `Control::follows` is one look-up; contracts see it as the list of these pairs, exactly
//! those of `argot_facts` (`specs/Follows.antt`, `specs/Exact.antt`), by what the tables of points-to have; where these are
//! exact, by the program.
//!
//! A block is a run of places that control enters at the first one alone; a path leads from one place to another exactly where
//! the latter stands behind the former in one block, or where the block of the one leads to that of the other
//! (`specs/Blocks.antt`; the laws here say that this is right over any handed facts). `blocks_of` gives each place the number of
//! its block (`specs/Numbering.antt`): a block ends before exits and targets of Gotos and Branches, behind instructions that
//! don't go straight on, and at the places of functions that aren't live. The pairs of places between which control goes at
//! once (`specs/Pairs.antt`) make steps between blocks (`specs/Between.antt`), and `rows_of` gives for each block exactly the
//! blocks to which it leads by steps (`specs/Steps.antt`): it goes over the steps until no row changes, joins rows by words,
//! and takes a bit for each pair of blocks. Flags tell which places write and which read (`specs/Accesses.antt`). All in all it
//! takes some words a place and a target, and those bits.
#![tactic(auto)]

mod accesses;
mod answer;
mod blocks;
mod entered;
mod inner;
pub mod laws;
mod live;
mod numbers;
mod order;
mod pairs;
mod rows;
mod steps;
mod uses;

pub use answer::control;
pub use numbers::blocks_of;
pub use order::Control;
pub use rows::rows_of;

#[cfg(test)]
mod tests;
