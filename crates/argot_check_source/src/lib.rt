//! What typing and lowering read off the trees of a program before anything is typed, as functions.
//!
//! `specs/Code` has the nodes of all trees under one number each, with children, parents and texts; `Names` what a name
//! stands for; `LiteralValues` the values of literals; `Functions` the function around a node; `Constants` which list a
//! specification of constants has, `iota`, and what is copied; `Jumps` where `break` and `continue` lead and which labels are
//! right; `Terminating` behind which statements nothing runs; `Methods` which type a method belongs to. Nothing of it is
//! judged here. There is no code: the function of `laws` has worked values.
#![tactic(auto)]

pub mod laws;
