//! What the subset of the language leaves out, in the files of a program.
//!
//! `spots_of` finds all of it that stands in one file (`IsInFile`): imports, comments for the compiler, literals, type
//! parameters, `goto`, names and method expressions by tables of what names stand for, and functions without a body and
//! without an entry; each feature at each place once, by place and then in the order of features. `types_of` marks the
//! names of declared types among the nodes of all trees, `bases_of` counts the nodes before each file, and `standings_of`
//! makes the tables of names from the uses that a loaded program has (`AreStandings`). Entries are found by what they
//! name, in a table that `entry_table` makes. Each is linear in what it is given but for hashing and for the order of what is
//! found.
#![tactic(auto)]

mod comments;
mod entries;
mod files;
mod links;
mod names;
mod notes;
mod parts;
mod receivers;
mod spots;
mod standings;
mod tables;
mod view;

pub use entries::{EntryTable, Key, entry_table};
pub use files::{listed, note_file, spots_of};
pub use parts::Part;
pub use spots::{Spot, note, rank_of};
pub use standings::{Standings, standings_of};
pub use tables::{bases_of, types_of};
pub use view::View;

#[cfg(test)]
mod tests;
