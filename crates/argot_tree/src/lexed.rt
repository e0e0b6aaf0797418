// All tokens of a file.
use crate::Token;
use argot_text::Sequence;

/// The tokens of a file in order, and the offsets of its directives, the line comments that begin with `//go:`.
#[derive(Debug, Drop)]
pub struct Lexed {
    pub tokens: Sequence<Token>,
    pub directives: Sequence<u32>,
}
