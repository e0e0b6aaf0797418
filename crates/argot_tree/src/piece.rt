// What a file is cut into.
use crate::TokenKind;

/// What a stretch of a file is.
#[derive(Clone, Copy, Debug, PartialEq, Eq)]
pub enum Piece {
    /// A blank, a tab or a carriage return.
    Space,
    /// The end of a line.
    Newline,
    /// A comment up to the end of its line.
    LineComment,
    /// Such a comment that begins with `//go:`.
    Directive,
    /// A comment up to `*/`, without a newline.
    Comment,
    /// A comment up to `*/`, with a newline.
    LongComment,
    /// A token; never an inserted one.
    Token(TokenKind),
}
