//! Reaching definitions by static single assignment: for every place and each register that it reads exactly the
//! definitions from which a path leads there with no other definition of the register between.
//!
//! A function is cut into blocks, runs of places that are entered only at the first (`cut`, `net`). A read finds the
//! definition before it in its block, or it asks for the phi value at the block's first place (`asks`), which merges what
//! the blocks before have at their ends (`outs`). There are no dominators: which blocks have a phi value of a register is
//! found from the reads that ask for it, backward by a worklist over the queue (`flood`), and each definition that leaves
//! its block is carried forward through these blocks alone (`carry`). Beside the answer this takes a few words a place,
//! and for a register time in proportion to the blocks that need it, for each definition of it that leaves its block, and
//! to its definitions times the reads that ask.
//!
//! `specs/Form` says what `build`, `Ssa::defs_of` and `defs` promise, over the relation of reaching definitions of
//! `argot_facts`; `specs/Places` and `specs/Paths` have the blocks and what stands between. `argot_points` and the edges
//! above it read the answer of `defs`.
#![tactic(auto)]

mod all;
mod asks;
mod carry;
mod collect;
mod cut;
mod flood;
mod form;
mod growing;
mod net;
mod order;
mod outs;
mod places;
mod registers;
mod work;

pub use all::defs;
pub use form::{DefWalk, Ssa, build};
