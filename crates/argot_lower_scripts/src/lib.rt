//! Scripts: what lowering does for a form of node, in order.
//!
//! A script gives out registers, places and sites, writes instructions, and has the code of the nodes below put in
//! (`specs/Script.antt`, with words for what recurs in `Words.antt`). `Says` of `specs/Says.antt` is the relation that a
//! stretch of finished code is what a script does. It knows no form of node: the rows, a script for each node and each
//! thing that may be wanted of it, are a parameter. So what is proved here is proved once for all forms: `one_code`
//! says that two codes of one script have the same. The layer above gives the rows (`argot_lower_rows`). There is no
//! code here, so it costs nothing.
#![tactic(auto)]

pub mod laws;
