// The sites that a value leads to.
ghost use Rattle.std.specs.Prelude.{◌≡◌, ◌↔◌, ◌<◌, ℕ, IfOk, length};
ghost use Rattle.argot_facts.specs.Marked.{IsSet};
ghost use Rattle.argot_facts.specs.Pointing.{IsPlaceOf};
ghost use Rattle.argot_escape.specs.Flooding.{Finds, FoundBy, IsReady, AtLeadsTo, IndexLeadsTo};

use crate::answer::nothing;
use crate::flood::drain;
use crate::found::Found;
use crate::starts::{first_of, reach_node};
use argot_facts::Points;
use argot_text::Memory;
use std::alloc::Global;

/// Finds the sites to which a node refers, where it has the index.
fn reach_at(points: &Points, found: &mut Found, n: u32, index: u32)
    requires ready { IsReady points.now.locations found.old }
    requires inside { n < length points.now.nodes }
    ensures { Finds (AtLeadsTo points.now index n) found.old found.new }
{
    if points.nodes().node(n).index == index {
        reach_node(points, found, n);
    }
}

/// Finds the sites to which the nodes of a place with the index refer.
fn reach_index(points: &Points, found: &mut Found, place: u32, index: u32)
    requires ready { IsReady points.now.locations found.old }
    requires small { place < 4294967295 }
    ensures { Finds (IndexLeadsTo points.now place index) found.old found.new }
{
    let nodes = points.nodes();
    let first = first_of(nodes, place);
    let last = first_of(nodes, place + 1);
    for n in first..last {
        reach_at(points, found, n as u32, index);
    }
}

/// By site, of which there are so many, whether the value of the index at a place leads there: refers to it itself, or to a site
/// of which a location does, and so on. Takes a byte and a word a site.
pub fn reached(
    alloc: Global,
    points: &Points,
    sites: u32,
    place: u32,
    index: u32,
) -> Result<Vec<bool>, Memory>
    requires sites { (s y : ℕ) → IsPlaceOf points.now.locations s y → s < sites }
    requires small { place < 4294967295 }
    ensures { IfOk result (λ v. (s : ℕ) → IsSet v.items s ↔ FoundBy points.now (IndexLeadsTo points.now place index) s) }
{
    let mut found = nothing(alloc, sites)?;
    reach_index(points, &mut found, place, index);
    drain(points, &mut found);
    Ok(found.flags)
}
