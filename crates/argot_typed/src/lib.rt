//! What the checker finds out about a program: its types, the type and the constant of each node, and what each
//! name means.
//!
//! A type is a number in a `TypeTable`, which contracts see as a list of shapes. `specs/Fitting` says what it means
//! that the numbers fit the table; each table keeps it. `leaf_count` and `leaves` meet `specs/Leaves`: the paths from
//! a value of a type to its numbers, texts, truth values and references, in order of fields. The table has the
//! number of these paths beside each shape, counted once when it is made, so that `leaf_count` takes no memory and
//! one step, however often types are shared or nested.
#![tactic(auto)]

mod counting;
pub mod laws;
mod paths;
mod program;
mod shape;
mod table;

pub use paths::{leaf_count, leaves};
pub use program::{Decl, NodeConst, NodeType, Package, Packages, TypedProgram, Use};
pub use shape::{Dir, FieldShape, MethodShape, Shape, TypeId};
pub use table::TypeTable;

#[cfg(test)]
mod tests;
