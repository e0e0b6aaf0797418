//! What lowering knows of a typed program before the first row.
//!
//! `specs/Typed.antt` is what it is handed. From it come, each as a function of the tree and of what typing found: nodes
//! by one number each (`Nodes`), the types of nodes and what a type is made of (`Types`), what a name means (`Names`),
//! functions with their parameters, results and captures (`Functions`), which variables are objects (`Variables`), which
//! expressions have a place and what a place expression goes through (`Places`), and the package variables in order
//! (`Globals`). `argot_lower_rows` looks up nothing else. There is no code here: these are definitions.
#![tactic(auto)]
