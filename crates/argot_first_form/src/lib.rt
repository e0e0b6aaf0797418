//! Reads a program of the first form: straight-line code over strings in one file of at most 4,096 bytes.
//! The grammar is `specs/Tree.antt`, where each production has one spelling; `read` meets it in both directions.
//! The layer above uses the program's functions and main's steps.
#![tactic(auto)]

mod brackets;
mod bytes;
mod conditions;
mod fault;
mod functions;
mod headers;
mod lines;
mod names;
mod reader;
mod scopes;
mod statements;
mod steps;
mod values;
mod whole;

pub use functions::{Function, Returned};
pub use lines::Program;
pub use names::{Names, Scope, number_of, scope_of, step_numbers};
pub use scopes::has_result;
pub use steps::{Action, Name, Operand, Step};
pub use whole::read;
