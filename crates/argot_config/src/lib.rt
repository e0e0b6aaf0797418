//! What a configuration asks of a program.
//!
//! `problem` makes a problem of a configuration into numbers: the functions that its matchers name, and the Reads and
//! Moves whose place expressions go through fields and variables that they name. `specs/Matching.antt` says what a
//! matcher names, and `specs/Asking.antt` what the problem is; it fits the program. Reading a configuration is
//! `argot_config_read`'s, whose names are passed on here, so that the layer above names this crate alone. Each matcher
//! goes over the functions, or over the tags of the places, once, with its patterns made ready before; it looks at each
//! path of a package once, and of functions at those whose package passes.
#![tactic(auto)]

mod fitting;
mod functions;
mod looking;
mod packages;
mod places;

pub use argot_config_read::{
    Asked, Config, ConfigFault, Maker, MatchKind, Matcher, PatternFault, Patterns, Test, fallback,
    read,
};
pub use fitting::problem;
