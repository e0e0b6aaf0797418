// A constant's value, and the causes for which an operator gives none.

use thiserror::Error;

/// The value of a constant, as far as the checker looks at it.
#[derive(Clone, Copy, Debug, PartialEq, Eq)]
pub enum Const {
    /// A whole number.
    Whole(i128),
    /// A text, known by its length in bytes.
    Text(u64),
    /// A truth value, either one.
    Truth,
}

/// Why an operator on constants gives no constant, in the order in which the causes are looked for.
#[derive(Clone, Copy, Debug, PartialEq, Eq, Error)]
pub enum ConstFault {
    /// The value is no signed number of 128 bits, or the text has 2^64 bytes or more.
    #[error("the constant is too wide")]
    TooWide,
    /// A whole number is divided by 0.
    #[error("division by zero")]
    DivideByZero,
    /// The operator doesn't take constants of these kinds, or a shift count is negative.
    #[error("the operator doesn't take these constants")]
    Mismatched,
}
