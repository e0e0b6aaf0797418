//! Packages and names of a folder's files: which packages its imports reach, which declaration each name means, what is
//! wrong with them, and what the subset of the language leaves out.
//!
//! `specs/` has the definitions. Packages: `Homes` and `Imports`; blocks, declarations and scope: `Blocks`, `Locals`,
//! `Tops`, `Scopes`, `Uses`; what is wrong: `Faults`; what is answered: `Loaded`, `Flags`, `Library`.
#![tactic(auto)]

mod alias;
mod fault;
mod flag;
pub mod laws;
mod package_key;

pub use alias::Alias;
pub use fault::NameFault;
pub use flag::{Feature, Flag};
pub use package_key::PackageKey;
