//! Tokens and trees of a source file, and what it means that they spell it.
//!
//! `specs/` says which bytes are a name, a number, a text and so on (`Pieces.antt`) and when a list of tokens spells a
//! whole file (`Text.antt`); `Grammar.antt` has one case for each production, and `Trees.antt` says when a list of nodes
//! is the tree of a token list. The lexer and the parser meet these both ways. `Entries` has what a user states of
//! functions without a body.
#![tactic(auto)]

mod entries;
mod keyword;
mod lexed;
mod mark;
mod node_kind;
mod piece;
mod token;
mod tree;

pub use entries::{Entries, Entry};
pub use keyword::Keyword;
pub use lexed::Lexed;
pub use mark::Mark;
pub use node_kind::NodeKind;
pub use piece::Piece;
pub use token::{Token, TokenKind};
pub use tree::{Tree, TreeNode};
