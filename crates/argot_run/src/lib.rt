//! The top call: everything that the program does, over words, files and sinks that are handed in.
//!
//! `argot` reads the words, lists and reads the folder, and answers a status after it has written its text. Its
//! contract is the table of `specs/Ends.antt` and `specs/Due.antt`: which answer is due, and that this one alone is
//! given, or a fault of the outside that was counted in this call, or want of memory with nothing written.
#![tactic(auto)]

mod answer;
mod deliver;
mod listed;
mod status;
mod top;
mod words;

pub use status::Status;
pub use top::argot;

#[cfg(test)]
mod tests;
