// What can be read by itself.

/// A part of the grammar that is read by itself.
#[derive(Clone, Copy, Debug, PartialEq, Eq)]
pub enum Part {
    /// A type.
    Kinds,
    /// The parameters of a function in their parentheses.
    Params,
    /// Parameters, and the result behind them.
    Sig,
    /// A declaration of constants, variables or types.
    Decl,
    /// Statements in their braces.
    Block,
}

/// An expression, with braces behind bare type names or without, or another part.
#[derive(Clone, Copy, Debug)]
pub enum Alone {
    Expression(bool),
    Other(Part),
}
