//! What each instruction asks of the points-to relation, as rules on nodes and locations.
//!
//! `list_nodes` and `list_locations` number what refers and what is referred to, within the limits; `rules_of`
//! goes over the instructions with the definitions that reach them and answers the rules; `reference` is the node by
//! which a call finds whom it calls. `specs/Column.antt`
//! has the rules of each kind of instruction, `specs/Listing.antt` the limits. The solver of `argot_points`
//! follows the rules and knows nothing of instructions.
#![tactic(auto)]

mod column;
mod locations;
mod nodes;
mod parts;
mod paths;
mod reaching;
mod rules;
mod sites;
mod stretches;
mod values;

pub use column::{reference, rules_of};
pub use locations::list_locations;
pub use nodes::{leaves_of, list_nodes};
pub use paths::{copied, is_joined, same_path};
pub use reaching::definitions;
pub use rules::{Owned, PointsFault, Rule};
pub use stretches::{are_in_order, stretch_of};
