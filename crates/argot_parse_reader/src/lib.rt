//! How trees are read from tokens, as a definition, and what it has to do with the trees that spell them.
//!
//! `specs/Reader.antt` computes from left to right where a part of the grammar ends, and its nodes, each behind its
//! children. The parser's code gives what it gives; here stand the laws that relate it to `Spells` of argot_tree.
#![tactic(auto)]

mod laws;
mod post;

pub use laws::{
    one_part, one_tree, read_longest, read_none, reads_spelled, spelled_reached, spelled_read,
};
pub use post::Post;
