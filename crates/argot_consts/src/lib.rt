//! Constant expressions: the value of an operator on constants, or why it has none.
//!
//! `fold` and `fold_one` meet `fold_of` and `fold_one_of` of `specs/Fold`, which compute whole numbers
//! exactly, on the mathematical integers of `specs/Whole`, and ask only at the end whether the value
//! is one of 128 signed bits. A text is known by its length alone. The checker above uses these two
//! calls. They take no memory and a bounded number of steps. The functions of `laws` have no code:
//! their contracts say what the definitions mean (a quotient rounds toward zero, a right shift rounds
//! down, the operators on bits go bit by bit, two numbers with the same bits are equal).
#![tactic(auto)]

mod constants;
mod folding;
mod halves;
pub mod laws;
mod operators;
mod wholes;

pub use constants::{Const, ConstFault};
pub use folding::{fold, fold_one};
pub use operators::{Binary, Unary};

#[cfg(test)]
mod tests;
