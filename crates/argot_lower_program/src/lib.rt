//! The plain code of a typed program.
//!
//! `IsPlainCode` of `specs/PlainCode.antt` says which code it is: the functions that `specs/Orders.antt` lists, in that
//! order, each with the name, the counts and the script that `specs/Functions.antt` gives it, each behind the one before;
//! the package variables with their sites; wrappers by type and name; which boxed type is or implements which asserted
//! one; and nothing else. The three limits of plain code stand beside it. `one_program` says that two plain codes of one
//! typed program in the same order are the same. There is no code here: it is what lowering will be proved to answer.
#![tactic(auto)]

pub mod laws;
