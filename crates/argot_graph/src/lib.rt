//! Graphs of flow edges: their order, and the graph whose edges are turned round, for data that is traced back.
//!
//! `turn` gives the same nodes and exactly the turned edges (`specs/Turning.antt`), ordered and without doubles, as a
//! `Graph` of `argot_facts` always is. Edges are put in order by rayon's stable sort over their keys (`specs/Order.antt`),
//! and what stands twice is dropped in one pass; it takes a second list of edges.
#![tactic(auto)]

mod order;
mod turning;

pub use order::{ordered, ordered_alone};
pub use turning::turn;
