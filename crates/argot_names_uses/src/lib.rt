//! The declarations of the packages that are reached, and which of them each name stands for, by numbers.
//!
//! `decls_of` meets `AreDecls` of argot_names_rules: the predeclared names, and then what the nodes of the packages' files
//! declare, by the numbers of the nodes, which are counted through all trees (`node_bases`). `uses_of` meets the list of uses
//! of `IsLoaded`: for each node that stands for a declaration the numbers of both, by node; and the first place of
//! `IsUnresolved`. Lone names and names of types have the meaning of scopes, a name behind a dot is a member of a package
//! (`package_meant`, `member_meant`), and a name on the left of a `:=` that its block has already is the first of these.
//! Each file's lists are gone through once, and each name is looked up once. All is linear but for hashing.
#![tactic(auto)]

mod all_files;
mod assigned;
mod bases;
mod decls;
mod faults;
mod files;
mod filling;
mod imported;
mod item;
mod known;
mod lone;
mod member_uses;
mod members;
mod news;
mod numbered;
mod numbers;
mod offsets;
mod order;
mod qualified;
mod text;
mod tops;
mod use_table;
mod uses;

pub use bases::{node_bases, node_count, node_number};
pub use decls::decls_of;
pub use faults::{is_blank, lone_fault, member_fault};
pub use members::member_meant;
pub use numbered::{decl_number, decl_table, entry_at, note};
pub use offsets::sooner;
pub use qualified::package_meant;
pub use uses::{NameUses, uses_of};
