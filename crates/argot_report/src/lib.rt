//! The report of what is found: the bytes that a command prints.
//!
//! `report` answers exactly the bytes of `specs/Report.antt`: a line for each finding in the order in which it is handed in,
//! below it the lines of its trace, and last how many there are. The length is counted as the report grows, so that no more
//! than a line stands beyond the limit. Names of sources and sinks are looked up in tables that are made once a problem; a
//! line costs its length and the logarithm of the number of functions.
#![tactic(auto)]

mod command;
mod counted;
mod ends;
mod faults;
mod fitting;
mod lines;
mod listing;
mod naming;
mod owner;
mod reporting;
mod subject;
mod writing;

pub use command::Command;
pub use faults::ReportFault;
pub use fitting::fits;
pub use reporting::report;

#[cfg(test)]
mod tests;
