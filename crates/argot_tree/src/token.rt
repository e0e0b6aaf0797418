// A token and its kind.
use crate::{Keyword, Mark};

/// What a token is.
#[derive(Clone, Copy, Debug, PartialEq, Eq)]
pub enum TokenKind {
    /// A name, `_` too.
    Name,
    /// A literal of a whole number.
    Whole,
    /// A literal with a point or an exponent.
    Float,
    /// A number followed by `i`.
    Imaginary,
    /// A character between single quotes.
    Rune,
    /// A text between double quotes.
    Chars,
    /// A text between backquotes.
    RawChars,
    Word(Keyword),
    Mark(Mark),
    /// The semicolon that the end of a line puts in.
    Inserted,
}

/// A token: its kind, the offset of its first byte, and the offset behind its last.
#[derive(Clone, Copy, Debug, PartialEq, Eq)]
pub struct Token {
    pub kind: TokenKind,
    pub start: u32,
    pub end: u32,
}
