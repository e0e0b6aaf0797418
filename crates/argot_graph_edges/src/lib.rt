//! The flow edges of a program under a problem: along which data moves from node to node.
//!
//! `edges` answers the graph, exactly (`specs/Graphs.antt` of `argot_facts`), over what the tables of points-to have, or Edges where
//! there are more than the limit. The rules of points-to (`argot_points_rules`) say where data moves as references do: `moves` draws
//! the edges for which each rule stands (`specs/Rows.antt`); `ops` those of computed values (`specs/Operating.antt`), `outside` those
//! of externals whose entry flows (`specs/Outward.antt`). Stores and loads among the rules say which nodes write and read which
//! locations (`accesses`, `specs/Accessing.antt`); by location, writes meet reads (`meets`, `specs/Meeting.antt`) and the arguments
//! of sinks and externals that lead there (`arguments`, `specs/Inward.antt`). What is found is gathered in a sketch, which is
//! thinned where it holds twice the limit. `proofs/All.antt` shows that these are all rows of the definition. It takes 16 bytes for
//! each edge that is found, 8 for each access, and a byte a site for one argument at a time.
#![tactic(auto)]

mod accesses;
mod answer;
mod arguments;
mod calls;
mod drawing;
mod handing;
mod meets;
mod moves;
mod ops;
mod outside;
mod sketch;
mod tables;

pub use answer::{GraphFault, edges};
