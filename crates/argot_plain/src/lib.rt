//! Plain code: the program that the analysis works on, as numbered functions, places, registers and
//! sites. `specs/` says what a well-formed program is and gives the machine that runs it: its states,
//! its steps, the labels that data carries and what a leak is. A `Program` is well formed by its type,
//! so that every layer above may rely on it; its readers cost no more than an index. The module `first` has plain
//! code cut to what straight-line programs on texts need, with its flows as relations in `specs/First.antt`.
#![tactic(auto)]

pub mod first;
mod functions;
mod instructions;
mod problems;
mod programs;
mod sites;

pub use functions::{Function, Ident, Role};
pub use instructions::{Callee, Instr, Kind, Tag, Tags};
pub use problems::Problem;
pub use programs::Program;
pub use sites::Site;
