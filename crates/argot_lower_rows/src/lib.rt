//! The rows of lowering: for each form of node the script of its plain code.
//!
//! A file of `specs/` has a family of forms, each row under what it does: `Names`, `Walks` (fields and receivers),
//! `Indexes`, `Operators`, `Conversions`, `Literals`, `Functions` (as values), `Calls`, `BuiltIns`, `Places`,
//! `Assignments`, `Around` (jumps and lists of statements), `Branches`, `Loops`, `Switches`, `Returns`. `Table` says which
//! row a node has, by what is wanted of it and by its kind; `Heads` has whole functions. docs/analysis.md has the same in
//! words. There is no code here: `argot_lower_program` says with these what the plain code of a program is.
#![tactic(auto)]
