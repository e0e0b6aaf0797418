//! The built-in stubs: texts that stand for packages of the standard library.
//!
//! `stub` meets `HasStub` of `specs/Stubs`, which pairs each path with a text of `specs/Texts`, line by
//! line. The crate that loads packages asks for the stubs that imports name. No memory is taken.
#![tactic(auto)]

mod stubs;
mod texts;

pub use stubs::stub;

#[cfg(test)]
mod tests;
