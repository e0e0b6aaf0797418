//! The blocks of one file's functions, what its nodes bring into scope, and which names they look up: exact lists, each by
//! its nodes in order. The innermost block around a token is found by search.
#![tactic(auto)]

mod binding;
mod bindings;
mod blocks;
mod generics;
mod lookup;
mod roles;
mod tables;
mod tops;

pub use binding::{Binding, BindingKind, bring};
pub use bindings::{Bindings, Lookup, bindings_of};
pub use blocks::{Block, Span, block_around, block_at, blocks_of, innermost, is_block};
pub use lookup::{QualifiedName, is_key, looked_at, member_at};
pub use roles::Role;
pub use tables::{Found, Tables};
pub use tops::{Sort, TopName, top_at};
