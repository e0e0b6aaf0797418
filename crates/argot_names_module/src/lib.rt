//! What a `go.mod` file gives: the module's path and the numbers of its `go` line.
//!
//! `go_mod_of` meets `GivesModule` and `GivesNumbers` of argot_names_rules. Both are read off the first line that begins with
//! a word, `module` or `go`, and has another behind it: `first_line` meets `FirstLine`, and says where the first word of that
//! line stands, and the second. What stands behind `//` doesn't count, nor does a line that isn't UTF-8. `line_at` is the line
//! from an offset on. All take no memory and time that is linear in the bytes.
#![tactic(auto)]

mod go_mod;
mod lines;
mod numbers;
mod quotes;
mod words;

pub use go_mod::{GoMod, go_mod_of};
pub use lines::{Line, first_line, line_at};

#[cfg(test)]
mod tests;
