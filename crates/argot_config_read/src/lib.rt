//! The configuration: what a user asks, read from one JSON text.
//!
//! `read` takes the bytes of a file and answers the whole configuration, or its first fault with the path to it. What
//! each key may hold stands as one table in `specs/Table.antt`; `specs/Shapes.antt` lists every fault of a value in
//! order, and `specs/Wanted.antt` says what an accepted value means. JSON is `serde_json`'s and patterns are `regex`'s.
//! Patterns are made through the trait `Patterns`, in order and once each; its real maker is `Maker`. The layer above
//! asks the configuration of a program. A reading costs its text and the making of its patterns.
#![tactic(auto)]

mod building;
mod built_in;
mod config;
mod faults;
mod maker;
mod objects;
mod paths;
mod patterns;
mod reader;
mod reading;
mod scalars;
#[cfg(test)]
mod tests;
mod wanted;

pub use built_in::fallback;
pub use config::{Asked, Config, MatchKind, Matcher, Test};
pub use faults::ConfigFault;
pub use maker::Maker;
pub use patterns::{PatternFault, Patterns};
pub use reader::read;
