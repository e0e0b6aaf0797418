//! Texts, lists, paths into a value, positions and the bytes of an answer.
//!
//! Every other crate stands on this one. A `Text` is seen as its bytes, a `Sequence` and `Texts` as the lists of
//! their items, an `Out` as the bytes pushed so far; `pos_of` gives the line and the column of `specs/Lines.antt`.
//! Only what grows takes memory, and after `Memory` an `Out` and a `Texts` are what they were.
#![tactic(auto)]

mod memory;
mod out;
mod path;
mod position;
mod sequence;
mod sources;
mod text;
mod texts;

pub use memory::Memory;
pub use out::Out;
pub use path::{Path, PathStep, Paths};
pub use position::{Pos, pos_of};
pub use sequence::Sequence;
pub use sources::{Contents, Sources};
pub use text::Text;
pub use texts::Texts;

#[cfg(test)]
mod tests;
