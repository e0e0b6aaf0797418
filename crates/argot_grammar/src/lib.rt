//! Reads types, expressions, statements and declarations, as the tokens come, without going back.
//!
//! Each function of the parser gives what the reader of argot_parse_reader gives for its part: where the part ends, and its
//! nodes behind those that were there. Nodes are written behind their children, each with the size of its tree.
//! `expression` and `part` answer the longest part that begins at a token, or that none does. argot_parse stands on the
//! parts that are public here. argot_parse_tokens has what the code asks of tokens and how it writes nodes, and argot_parse_nodes puts
//! the nodes before their children. Lists, chains of operators, of suffixes, of labels and of `else if` are loops, so the
//! calls are as deep as the nesting.
#![tactic(auto)]

mod alone;
mod blocks;
mod declarations;
mod elements;
mod expressions;
mod fault;
mod fields;
mod heads;
mod loops;
mod operands;
mod parts;
mod signatures;
mod statements;
mod suffixes;
mod switches;
mod types;

pub use alone::Part;
pub use blocks::block;
pub use declarations::{closed_by_paren, decl, type_params};
pub use fault::ParseFault;
pub use fields::names;
pub use parts::{expression, part};
pub use signatures::signature;
pub use types::any_type;
