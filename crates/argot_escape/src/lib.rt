//! Which sites escape: sites whose objects several goroutines may reach. These are the sites of package variables, those to
//! which what a live Go hands on refers, and those to which a location of an escaping site refers.
//!
//! `escapes` answers by site, exactly the relation of `argot_facts` (`specs/Escapes.antt`), over the facts that the tables
//! of points-to have; where these are exact, that is the program's own relation. A site is marked once and then waits in a
//! queue until its locations are looked at, so that the rows of escaping sites are read once. It takes a byte and a word a
//! site.
#![tactic(auto)]

mod answer;
mod flood;
mod found;
mod reaching;
mod starts;

pub use answer::escapes;
pub use reaching::reached;
