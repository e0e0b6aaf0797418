//! The flows of a program of the first form, and their report.
//! `specs/Code.antt` gives the plain code of a program, the module `first` of `argot_plain` the flows of such code, and
//! `specs/Answer.antt` what `analyse_first` answers, which is all that the layer above uses. The flows are found in one
//! walk over main's steps, so that time goes by the steps and the flows.
#![tactic(auto)]

mod analyse;
mod calls;
mod flows;
mod found;
mod links;
mod lowering;
mod report;

pub use analyse::analyse_first;
pub use found::{Answer, Flow};

#[cfg(test)]
mod tests;
