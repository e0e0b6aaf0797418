//! The steps that the parser's code is made of: questions about the tokens at a place, and the list of nodes that it writes.
//!
//! Each answers what the definition of the same name of argot_tree or argot_parse_reader says: which token stands somewhere
//! and what may begin or end there, the nodes with one more over those since a mark, the nodes without those since a mark,
//! an arrow that is given to the `chan` behind it. A `Row` has the types that go on to their right, and `Operators` are those
//! before an operand: both are put on when what stands in them is read, so that no call is as deep as they are many. Their
//! definitions stand in specs/; a row costs a list of its types. `Writer` also keeps the furthest token at which one that is
//! needed was missing; no contract speaks of it. argot_grammar and argot_parse stand on this.
#![tactic(auto)]

mod arrows;
mod last;
mod notes;
mod operators;
mod peek;
mod rows;
mod writer;

pub use arrows::recast;
pub use last::{is_primary, typed};
pub use notes::{
    bracket_behind_dots, name_behind_comma, name_behind_dot, paren_behind_first_guard,
    paren_behind_guard, range_behind_define, type_behind_names, values_behind_names,
};
pub use operators::{Operators, close_operators, operators_at, stays};
pub use peek::{
    assign_at, clause_at, composite_at, conversion_at, defines, ends_stmt_at, ends_stmts_at,
    goes_on, guards, is_dotted, is_generic, is_label, is_mark, is_name, is_word, kind_at, level_at,
    literal_at, names_then_parameter, names_then_type, no_bracket_at, op_assign_at, opens_bracket,
    range_at, ranges, semicolon_at, text_at, type_at, unary_at,
};
pub use rows::{Begun, Row, Turn, begin, close_row};
pub use writer::{Writer, close, close_all, expect, expect_list, keep, missing, narrow, put, undo};
