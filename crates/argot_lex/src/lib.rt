//! Cuts a file into tokens.
//!
//! `lex` meets `SpellsText` of argot_tree both ways: it answers the one list of tokens and directives that spells the
//! bytes, or the first offset at which no piece begins. One pass, linear; no memory but that of the lists.
//! `specs/` computes the piece at the front of a text as the code does, and `proofs/` shows that it is the longest.
#![tactic(auto)]

mod characters;
mod comments;
mod front;
mod lexing;
mod literals;
mod marks;
mod names;
mod numbers;

pub use lexing::{LexFault, lex, one_spelling};

#[cfg(test)]
mod tests;
