//! Programs of plain code written down as texts, for tests and windows.
//!
//! A text has a line for each item; words stand between spaces, and a line that begins with `#` or is empty is passed over.
//!
//!     file PATH
//!     function NAME ENTRY EXIT LEAVE PARAMS RESULTS ROLE ENV EXTERNAL WRAPS IDENT REGISTER..
//!     site PLACE RESULT LEAF SHAPE TYPE FUNCTION
//!     variable NAME SITE
//!     method TYPE NAME FUNCTION
//!     implements TYPE TYPE
//!     tag KIND IDENT
//!
//! A `tag` line, whose KIND is `field` or `variable`, stands before the instruction that has the tag. ROLE is `own`, `wrapper` or `bound`; ENV is `env` or `-`; EXTERNAL is `-`, `flows` or `inert`; WRAPS and FUNCTION are a
//! number or `-`; IDENT is `-` or `PACKAGE:RECEIVER:NAME`. A register, a shape and the leaves of a Read are lists of paths
//! with commas between them, or `none`; a path is `-` or steps with dots between them: `f0` a field, `e` an element, `k` a
//! key, `v` a value, `c` what a channel holds, `x0` a capture. All other lines are instructions, in the order of their
//! places: `op TO FROM..`, `move TO FROM PATH`, `join TO PATH=REGISTER..`, `new TO SITE`, `step TO FROM PATH`, `read TO AT
//! LEAVES`, `write AT FROM`, `grow TO AT ITEM..`, `global TO VARIABLE`, `assert TO FROM TYPE`, `call TO.. = CALLEE ARG..`,
//! `go CALLEE ARG..`, `defer CALLEE ARG..`, `rundefers`, `leave FROM..`, `goto PLACE`, `branch PLACE..`, `panic FROM` and
//! `passed TO FUNCTION`, where a CALLEE is `f3`, `v3` or `m3:NAME`: by number, by value, or a method of the value in a box.
//!
//! `read_parts` gives the parts as they are written; whether they make a program is tested by `argot_plain_parts`, and no
//! contract here says which parts a text stands for.
#![tactic(auto)]

mod draft;
mod items;
mod kinds;
mod paths;
mod reading;
mod words;

pub use reading::{read_parts, read_program};

#[cfg(test)]
mod samples;
#[cfg(test)]
mod tests;
