// Values that are put together or taken apart, leaf by leaf.
ghost use Rattle.std.specs.Prelude.{◌≡◌, ◌++◌, ◌∷◌, [], length, drop, OnOk, if◌then◌else◌};
ghost use Rattle.argot_plain.specs.Machine.{is_covered};
ghost use Rattle.argot_plain.specs.Lists.{has_element};
ghost use Rattle.argot_points_rules.specs.Column.{below_copies, move_copies, leaf_copies, part_copies};

use crate::nodes::small;
use crate::paths::{begins_with, is_joined};
use crate::rules::Owned;
use crate::values::push_copies;
use argot_facts::Node;
use argot_text::{Memory, Path, PathStep};

/// Whether the path leads through the elements of an array or slice.
fn has_element(path: &[PathStep]) -> bool
    ensures { result ≡ has_element path.now }
{
    for n in 0..path.len() {
        match path[n] {
            PathStep::Element => return true,
            PathStep::Field(_) => {}
            PathStep::Key => {}
            PathStep::Value => {}
            PathStep::Channel => {}
            PathStep::Capture(_) => {}
        }
    }
    false
}

/// Whether one of the parts, which doesn't lie among elements, replaces what stands at the path.
fn is_covered(path: &[PathStep], parts: &[(Path, u32)]) -> bool
    ensures { result ≡ is_covered path.now parts.now }
{
    for n in 0..parts.len() {
        let front = parts[n].0.as_slice();
        if !has_element(front) && begins_with(front, path) {
            return true;
        }
    }
    false
}

/// The node refers to what the leaf does that stands along the path and then at q.
fn push_below(
    rules: &mut Vec<Owned>,
    function: u32,
    to: Node,
    path: &[PathStep],
    q: &[PathStep],
    from: &[Path],
    found: &[(u32, u32)],
) -> Result<(), Memory>
    ensures { OnOk result (rules.new.items ≡ rules.old.items ++ below_copies function to path.now q.now 0 from.now found.now) }
{
    for a in 0..from.len() {
        if is_joined(from[a].as_slice(), path, q) {
            push_copies(rules, function, to, small(a)?, found)?;
        }
    }
    Ok(())
}

/// What stands below a path of a value.
pub(crate) fn push_move(
    rules: &mut Vec<Owned>,
    function: u32,
    place: u32,
    path: &[PathStep],
    to: &[Path],
    from: &[Path],
    found: &[(u32, u32)],
) -> Result<(), Memory>
    ensures { OnOk result (rules.new.items ≡ rules.old.items ++ move_copies function place path.now 0 to.now from.now found.now) }
{
    for a in 0..to.len() {
        let leaf = Node {
            place,
            index: 0,
            leaf: small(a)?,
        };
        push_below(rules, function, leaf, path, to[a].as_slice(), from, found)?;
    }
    Ok(())
}

/// The node at q refers to what the leaf of a part does that stands there behind the path.
fn push_leaf(
    rules: &mut Vec<Owned>,
    function: u32,
    to: Node,
    q: &[PathStep],
    path: &[PathStep],
    from: &[Path],
    found: &[(u32, u32)],
) -> Result<(), Memory>
    ensures { OnOk result (rules.new.items ≡ rules.old.items ++ leaf_copies function to q.now path.now 0 from.now found.now) }
{
    for a in 0..from.len() {
        if is_joined(q, path, from[a].as_slice()) {
            push_copies(rules, function, to, small(a)?, found)?;
        }
    }
    Ok(())
}

/// A part of a value, but for what later parts replace.
pub(crate) fn push_part(
    rules: &mut Vec<Owned>,
    function: u32,
    place: u32,
    path: &[PathStep],
    later: &[(Path, u32)],
    to: &[Path],
    from: &[Path],
    found: &[(u32, u32)],
) -> Result<(), Memory>
    ensures { OnOk result (rules.new.items ≡ rules.old.items ++ part_copies function place path.now later.now 0 to.now from.now found.now) }
{
    for a in 0..to.len() {
        let q = to[a].as_slice();
        let leaf = Node {
            place,
            index: 0,
            leaf: small(a)?,
        };
        if !is_covered(q, later) {
            push_leaf(rules, function, leaf, q, path, from, found)?;
        }
    }
    Ok(())
}
