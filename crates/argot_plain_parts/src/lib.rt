//! Programs of plain code from parts that are tested when they are handed over.
//!
//! `program_of` makes a program of parts that are well formed (`specs/WellFormed.antt` of `argot_plain`) and refuses all
//! others, so that tests and windows above can have programs that were written down or generated. Each clause of
//! well-formedness is tested by a function that is equal to a definition in `specs/`; `proofs/Whole.antt` shows that parts
//! which pass every test are well formed. The tests are linear in the program, but for pairs of leaf paths of one register
//! or site that don't ascend, of a Join's leaves and those of the whole, and of wrappers, which are compared with one another.
#![tactic(auto)]

mod calls;
mod functions;
mod instructions;
mod leaves;
mod numbers;
mod owners;
mod parts;
mod paths;
mod places;
mod program;
mod registers;
mod sites;
mod wrappers;

pub use parts::Parts;
pub use program::program_of;
