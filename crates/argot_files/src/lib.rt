//! The files of a program as values, which carry what their trees determine: the crates above are handed a `File`, and
//! neither its lists side by side nor tables whose facts they would have to ask for.
//!
//! A `File` is one file: contracts see it as the `SourceFile` of argot_names_rules, so `text`, `parent`, `children` and the
//! rest are that crate's words about it (`text_at`, `IsChild` ..). `File::new` asks that the nodes are those of a tree
//! (`IsFormed`, which `proofs/Forming` shows of each tree that spells tokens), and makes the tables of parents, of children that a node has at most once (`Key`) and of methods, each by one pass, in time and
//! memory linear in the tree. Each method takes constant time but `children`, a walk. The functions that make the tables
//! stand by themselves too. `Files` are the files of a folder, which are
//! handed on together. A `Place` is a byte of a file.
#![tactic(auto)]

mod children;
mod file;
mod files;
mod keys;
mod marks;
mod parents;
mod place;
mod tables;
mod texts;

pub use children::Children;
pub use file::File;
pub use files::Files;
pub use keys::{Key, key_children};
pub use marks::{Wanted, marks_of};
pub use parents::parents_of;
pub use place::{Place, is_before};
pub use texts::{range_of, spelled_at};
