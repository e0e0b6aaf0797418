//! The rules of typing: what each asks, what it gives, and when a node is ill by it or too wide.
//!
//! A rule is data of `argot_check_asking` over rows (`specs/Rows`) and facts, and knows nothing of trees: it is a function of
//! the rows of its parts. A file has a family of rules, under the names that Go's own checker has for its rooms; each opens with
//! the rules in words. `Stages` has what is asked by type: what is under a type, whether it can be compared, whether a value
//! fits it. `argot_check_typing` gives each node its rule. There is no code here; the functions of `laws` have worked values,
//! one that is right and one that is ill for each rule with a condition.
#![tactic(auto)]

pub mod laws;
