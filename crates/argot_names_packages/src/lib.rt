//! The packages that the main one leads to, or what is wrong with packages and imports.
//!
//! `reach` meets `IsReach` of argot_names_imports where nothing is wrong, and `Refuses` of argot_names_rules where something
//! is, each fault at its first place, in this order: no main function (`has_main`), two names in one folder (`second_name`),
//! an import that finds nothing (`missing`), a cycle of imports (`cycle`). argot_names asks `reach` alone. All take time that
//! is linear in the files but for hashing, save where there is a cycle: then each import of a package that is on one or that
//! one leads to is tried for whether its package leads back, until the first place is found.
#![tactic(auto)]

mod checks;
mod clause;
mod cycles;
mod falling;
mod files;
mod main_function;
mod main_node;
mod names;
mod packages;
mod paths;
mod ranks;
mod reaching;
mod second;
mod spot;
mod standing;
mod unfound;

pub use clause::{clause_name, clause_token};
pub use cycles::cycle;
pub use main_function::has_main;
pub use reaching::reach;
pub use second::second_name;
pub use spot::{pos_at, spot_at};
pub use unfound::missing;
