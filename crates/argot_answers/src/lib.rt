//! The shapes of answers, once for all crates: what contracts say of an option, of a search for the least and of a list
//! that grows. There is no code here, so it costs nothing when it runs.
//!
//! `specs/Answers` has the three records. An `Option` that tells the one thing with a property is `Exactly Holds result`;
//! one that tells the first of several is `Least Before Holds result`; a list that has gained what has a property is
//! `Adds Holds old new`. A `bool` needs no record: `IsTrue result ↔ Claim`. `proofs/` has the lemmas by which answers are
//! given: `Exactly`, `Least`, `Adds`, `Tests` for a `bool`, and `Walks` for a `for` that searches.
#![tactic(auto)]
