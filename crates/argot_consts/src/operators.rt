// The operators of expressions.

/// An operator between two operands, in the order of the five levels, the tightest first.
#[derive(Clone, Copy, Debug, PartialEq, Eq)]
pub enum Binary {
    /// `*`
    Times,
    /// `/`
    Divide,
    /// `%`
    Remainder,
    /// `<<`
    ShiftLeft,
    /// `>>`
    ShiftRight,
    /// `&`
    BitAnd,
    /// `&^`
    BitClear,
    /// `+`
    Plus,
    /// `-`
    Minus,
    /// `|`
    BitOr,
    /// `^`
    BitXor,
    /// `==`
    Equal,
    /// `!=`
    NotEqual,
    /// `<`
    Less,
    /// `<=`
    AtMost,
    /// `>`
    Greater,
    /// `>=`
    AtLeast,
    /// `&&`
    Both,
    /// `||`
    Either,
}

/// An operator before one operand.
#[derive(Clone, Copy, Debug, PartialEq, Eq)]
pub enum Unary {
    /// `+`
    Same,
    /// `-`
    Negate,
    /// `!`
    Not,
    /// `^`
    Complement,
    /// `*`
    Follow,
    /// `&`
    Address,
    /// `<-`
    Receive,
}
