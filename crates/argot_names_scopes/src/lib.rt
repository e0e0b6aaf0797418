//! What the names of a file mean: which of the names that come into its blocks are new, which of them a name means at its
//! place, and what is declared again.
#![tactic(auto)]

mod again;
mod earliest;
mod file;
mod firsts;
mod links;
mod meant;
mod news;
mod shapes;
mod texts;

pub use again::first_again;
pub use earliest::{earliest_of, has_earlier};
pub use file::{FileNames, first_of, is_passed_over, meant_at, names_of, redeclared};
pub use firsts::firsts_of;
pub use links::{Links, links_of};
pub use meant::local_meant;
pub use news::news_of;
pub use texts::{spelled_at, spelled_of};
