//! The outside: files that are listed and read, sinks that take bytes.
//!
//! The traits `Files` and `Sink` say what a call answers and count each fault, so that a caller can say 'this fault
//! only where the count rose in this call'. `MemFiles` and `MemSink` hold what they tell and fail where they are told
//! to; `RealFiles` and `StdSink` are the trusted edge: they tell nothing of what a disk or a stream holds.
#![tactic(auto)]

mod below;
mod entries;
mod files;
mod mem_files;
mod mem_sink;
mod numbers;
mod real_files;
mod sink;
mod std_sink;
mod writing;

pub use entries::are_distinct;
pub use files::{Files, FilesCall, FilesFault};
pub use mem_files::MemFiles;
pub use mem_sink::MemSink;
pub use real_files::RealFiles;
pub use sink::{Sink, SinkFault};
pub use std_sink::StdSink;
pub use writing::write_all;

#[cfg(test)]
mod tests;
