//! The package level of scopes: what packages declare outside functions, which names imports declare, which names are
//! predeclared, and so what a name means.
//!
//! `tops_of` meets `AreTops`: the names of each file of a reached package, and two tables, one of the declarations outside
//! functions by package and name, one of the names of imports by file and name. `file_names`, `top_meant` and `import_meant`
//! take one look into these. `meaning_of` meets `Means` of argot_names_rules, block by block from the inside out: functions'
//! blocks (argot_names_scopes), the file's imports, the package's declarations, predeclared names. `redeclared` is the first
//! place of `IsRedeclared`; `is_exported` and `predeclared_number` say what a name's text alone says. The crates that resolve
//! names ask `meaning_of` for each. Tables are made in linear time but for hashing; a look costs the depth of blocks.
#![tactic(auto)]

mod again;
mod behind;
mod declared;
mod declared_names;
mod entries;
mod exported;
mod files;
mod functions;
mod imported;
mod imported_names;
mod making;
mod meaning;
mod named;
mod packaged;
mod predeclared;
mod texts;
mod tops;

pub use again::redeclared;
pub use argot_files::Place;
pub use entries::Entry;
pub use exported::is_exported;
pub use making::tops_of;
pub use meaning::{Meaning, meaning_of};
pub use named::Named;
pub use predeclared::{COUNT, predeclared_name, predeclared_number};
pub use tops::{PackageDecl, Tops, file_names, import_meant, top_meant};

#[cfg(test)]
mod tests;
