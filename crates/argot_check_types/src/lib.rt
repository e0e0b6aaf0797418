//! Types and the relations between them, as the rules of typing see them.
//!
//! A type is a finite tree (`specs/Types`), in which a declared type is a leaf: so identical types are equal trees
//! (`Identity`). What is under declared types, and their methods, is handed over as `Known`. On these stand which
//! field or method a name selects, also through embedded fields (`Members`), which types implement an interface, which
//! values fit a type (`Assignable`), can be compared (`Comparable`) and converted (`Convertible`), and which constants
//! a type represents (`Constants`). `Facts` has what typing says of a node, and `Tables` reads all this off the table of
//! types that a typed program has. There is no code here: the functions of `laws` say what the definitions mean.
#![tactic(auto)]

pub mod laws;
