// Which nodes write and read which locations, by what the rules of points-to store and load.
ghost use Rattle.std.specs.Prelude.{◌≡◌, ◌<◌, ◌++◌, ℕ, true, length, OnOk, IfOk, IfSome, IsNone};
ghost use Rattle.argot_plain.specs.Lists.{IsDistinct};
ghost use Rattle.argot_graph_edges.specs.Accessing.{AddsPairs, ArePairs, HasPath, IsMovedTo, Accesses, RowAccesses, NodeAccesses, StoredBy, LoadedBy, Written, Readable};

use crate::drawing::number;
use argot_facts::{Node, Points};
use argot_points_rules::{Owned, Rule, is_joined};
use argot_text::{Memory, PathStep};
use std::alloc::Global;

/// The number of a location moved along a path, where that is a location.
fn moved(points: &Points, y: u32, path: &[PathStep]) -> Option<u32>
    requires { y < length points.now.locations }
    ensures some { IfSome result (IsMovedTo points.now.locations y path.now) }
    ensures none { IsNone result → (z : ℕ) → IsMovedTo points.now.locations y path.now z → ⊥ }
{
    let here = points.location(y);
    let near = points.locations_of(here.site);
    for n in 0..near.len() {
        if is_moved(points, near[n], here.path.as_slice(), path) {
            return Some(near[n]);
        }
    }
    None
}

/// Whether the location has the path that is these two, one behind the other.
fn is_moved(points: &Points, z: u32, front: &[PathStep], rest: &[PathStep]) -> bool
    ensures yes { result ≡ true → HasPath points.now.locations z (front.now ++ rest.now) }
    ensures no { HasPath points.now.locations z (front.now ++ rest.now) → result ≡ true }
{
    if z as usize >= points.location_count() {
        return false;
    }
    is_joined(points.location(z).path.as_slice(), front, rest)
}

/// Adds the node with the location that is y moved along the path, where there is one.
fn push_access(
    points: &Points,
    pairs: &mut Vec<(u32, u32)>,
    y: u32,
    path: &[PathStep],
    node: u32,
) -> Result<(), Memory>
    requires { IsDistinct points.now.locations }
    ensures { OnOk result (AddsPairs (Accesses points.now.locations y path.now node) pairs.old.items pairs.new.items) }
{
    if y as usize >= points.location_count() {
        return Ok(());
    }
    if let Some(z) = moved(points, y, path) {
        pairs.push((z, node))?;
    }
    Ok(())
}

/// Adds those for all to which the node `at` refers.
fn push_accesses(
    points: &Points,
    pairs: &mut Vec<(u32, u32)>,
    at: u32,
    path: &[PathStep],
    node: u32,
) -> Result<(), Memory>
    requires apart { IsDistinct points.now.locations }
    requires inside { at < length points.now.nodes }
    ensures { OnOk result (AddsPairs (RowAccesses points.now at path.now node) pairs.old.items pairs.new.items) }
{
    for y in points.refers(at) {
        push_access(points, pairs, y, path, node)?;
    }
    Ok(())
}

/// The same by nodes, where both are nodes of the program.
fn push_node(
    points: &Points,
    pairs: &mut Vec<(u32, u32)>,
    at: Node,
    path: &[PathStep],
    node: Node,
) -> Result<(), Memory>
    requires apart { IsDistinct points.now.locations }
    ensures { OnOk result (AddsPairs (NodeAccesses points.now at path.now node) pairs.old.items pairs.new.items) }
{
    let nodes = points.nodes();
    let Some(at) = number(nodes, at) else {
        return Ok(());
    };
    let Some(node) = number(nodes, node) else {
        return Ok(());
    };
    push_accesses(points, pairs, at, path, node)
}

/// Adds what a rule stores.
fn push_stored(points: &Points, pairs: &mut Vec<(u32, u32)>, owned: &Owned) -> Result<(), Memory>
    requires apart { IsDistinct points.now.locations }
    ensures { OnOk result (AddsPairs (StoredBy points.now owned.now) pairs.old.items pairs.new.items) }
{
    if !points.is_live(owned.function) {
        return Ok(());
    }
    match &owned.rule {
        Rule::Store { at, path, source } => push_node(points, pairs, *at, path.as_slice(), *source),
        _ => Ok(()),
    }
}

/// Adds what a rule loads.
fn push_loaded(points: &Points, pairs: &mut Vec<(u32, u32)>, owned: &Owned) -> Result<(), Memory>
    requires apart { IsDistinct points.now.locations }
    ensures { OnOk result (AddsPairs (LoadedBy points.now owned.now) pairs.old.items pairs.new.items) }
{
    if !points.is_live(owned.function) {
        return Ok(());
    }
    match &owned.rule {
        Rule::Load { to, at, path } => push_node(points, pairs, *at, path.as_slice(), *to),
        _ => Ok(()),
    }
}

/// The locations that are written, each with the number of a node that does.
pub(crate) fn writes_of(
    alloc: Global,
    points: &Points,
    rules: &[Owned],
) -> Result<Vec<(u32, u32)>, Memory>
    requires apart { IsDistinct points.now.locations }
    ensures { IfOk result (λ v. ArePairs (Written points.now rules.now) v.items) }
{
    let mut pairs = Vec::new(alloc);
    for n in 0..rules.len() {
        push_stored(points, &mut pairs, &rules[n])?;
    }
    Ok(pairs)
}

/// The locations that are read, each with the number of a node that does.
pub(crate) fn reads_of(
    alloc: Global,
    points: &Points,
    rules: &[Owned],
) -> Result<Vec<(u32, u32)>, Memory>
    requires apart { IsDistinct points.now.locations }
    ensures { IfOk result (λ v. ArePairs (Readable points.now rules.now) v.items) }
{
    let mut pairs = Vec::new(alloc);
    for n in 0..rules.len() {
        push_loaded(points, &mut pairs, &rules[n])?;
    }
    Ok(pairs)
}
