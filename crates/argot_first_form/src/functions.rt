//! The functions that stand before main.

use crate::steps::Name;
use sqlite_items::Items;

/// What a function gives back.
#[derive(Debug, Drop)]
pub enum Returned {
    /// It has no result.
    Nothing,
    /// A text in quotes.
    Text,
    /// Its parameter of this name.
    Parameter(Name),
}

/// A function with its parameters and what it gives back.
#[derive(Debug, Drop)]
pub struct Function {
    pub name: Name,
    pub parameters: Items<Name>,
    pub returned: Returned,
}
