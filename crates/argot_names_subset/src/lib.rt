//! What the subset of the language leaves out of a loaded program, in order of place.
//!
//! `flags` meets `AreFlags` of argot_names_rules: exactly the features of `HasFeature`, each at each place once, by file, offset
//! and the order of features, with lines and columns. What a name stands for is known by the uses of the program (`IsLoaded`),
//! made into tables by node; each file of a package is looked through once with its part of them (`IsInside`), and then each
//! path, for assembly files in the packages' folders and the `go` line of the module (`IsOther`). All is linear in the files
//! and entries but for hashing and for the order of what is found.
#![tactic(auto)]

mod file;
mod flagging;
mod folders;
mod known;
mod others;
mod packages;
mod positions;

pub use flagging::flags;
