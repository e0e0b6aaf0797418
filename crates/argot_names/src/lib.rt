//! Packages and names: what those of a folder are or what is wrong with them, and which library texts its imports name.
//!
//! `load` meets `IsLoaded` of argot_names_rules: the packages that the main folder leads to, their declarations, and the
//! declaration that each name stands for; and `Refuses`, of the faults of packages and names the first in order, at its
//! first place. It is linear but for hashing, and looks each name up once. `stubs_named`
//! meets `AreNamed` of argot_names_rules: the paths of the library that imports of reached packages find, in byte order and each
//! once. The caller hands these texts over with the files and asks again, until no path is new. `flags` meets `AreFlags` of
//! argot_names_rules: all that the subset leaves out of what was loaded, in order of place.
#![tactic(auto)]

mod checks;
mod library;
mod loading;
mod texts;

pub use argot_names_rules::{Feature, Flag, NameFault};
pub use argot_names_subset::flags;
pub use loading::load;
pub use texts::stubs_named;

#[cfg(test)]
mod archives;
#[cfg(test)]
mod cases;
#[cfg(test)]
mod flag_tests;
#[cfg(test)]
mod load_tests;
#[cfg(test)]
mod package_tests;
