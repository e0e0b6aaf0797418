//! The steps of main, with the names of the program's text.

use sqlite_items::Items;

/// The bytes of a name.
pub type Name = Items<u8>;

/// Where a value stands.
#[derive(Debug, Drop)]
pub enum Operand {
    /// In the variable of this name.
    Variable(Name),
    /// In the result of the step with this number.
    Step(usize),
}

/// What a step does.
#[derive(Debug, Drop)]
pub enum Action {
    /// Gives a text in quotes.
    Text,
    /// Calls the function of this name.
    Call {
        function: Name,
        arguments: Items<Operand>,
    },
    /// Declares a variable with a value.
    Define {
        variable: Name,
        value: Operand,
    },
    /// Gives a variable another value.
    Assign {
        variable: Name,
        value: Operand,
    },
}

/// A step of main, with the offset of its first byte in the file.
#[derive(Debug, Drop)]
pub struct Step {
    pub at: usize,
    pub action: Action,
}
