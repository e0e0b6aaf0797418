//! Typing: what is said of each node of a program, what is wrong with it, and what a program with its types is.
//!
//! `specs/Rules` gives each row its rule: `Positions`, `Meanings`, `Literals`, `Types`, `Bindings`, `Expressions` and
//! `Statements` read the parts of a node off the tree and hand them to the rules of `argot_check_rules`. What the rules say is
//! typing (`Says`), the least relation that they are closed under. `Late` has the conditions that are looked at when all is
//! typed, `Loops` what depends on itself, `Faults` the first ill or too wide node, and `Answer` when the lists of a
//! `TypedProgram` are the typing of a program. There is no code here: the functions of `laws` say what the definitions mean.
#![tactic(auto)]

pub mod laws;
