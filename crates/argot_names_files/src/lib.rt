//! The files of a folder as the calls on names want them: numbered in byte order of path, each Go file with its tokens and
//! its tree, and the texts of the library behind them.
//!
//! `sources_of` puts paths and bytes together where they agree (`AreFiles`), `read_files` lexes and parses each Go file or
//! names the first that can't be read (`AreReadings`, `IsUnread`), and `with_library` adds the eight texts of the library, so
//! that `Agrees` and `HasLibrary` of argot_names_rules hold for every main folder. Time is that of lexing and parsing.
#![tactic(auto)]

mod folder;
mod library;
mod paths;
mod reading;
mod sources;
mod texts;

pub use folder::{Folder, with_library};
pub use paths::{is_assembly, is_go_file, is_numbered};
pub use reading::{ReadingFault, Readings, read_files};
pub use sources::sources_of;
pub use texts::folder_of_texts;

#[cfg(test)]
mod tests;
