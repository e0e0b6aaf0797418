// The rules of each instruction.
ghost use Rattle.std.specs.Prelude.{◌≡◌, ◌+◌, ◌-◌, ◌<◌, ◌≤◌, ◌^◌, ◌++◌, ◌∷◌, [], Some, None, length, drop, slice_get, OnOk, IfOk};
ghost use Rattle.argot_plain.specs.WellFormed.{WellFormed};
ghost use Rattle.argot_facts.specs.Numbers.{node, leaves_of, own_site, shape_at};
ghost use Rattle.argot_points_rules.specs.Column.{copies, shifts, keeps, loads, stores, value_copies, value_loads, value_stores};

use crate::nodes::small;
use crate::paths::copied;
use crate::rules::{Owned, Rule};
use argot_facts::Node;
use argot_text::{Memory, Path, PathStep};
use std::alloc::Global;

/// The node refers to what the leaf of each definition does.
pub(crate) fn push_copies(
    rules: &mut Vec<Owned>,
    function: u32,
    to: Node,
    leaf: u32,
    found: &[(u32, u32)],
) -> Result<(), Memory>
    ensures { OnOk result (rules.new.items ≡ rules.old.items ++ copies function to leaf found.now) }
{
    for n in 0..found.len() {
        let d = found[n];
        rules.push(Owned {
            function,
            rule: Rule::Copy {
                to,
                source: Node {
                    place: d.0,
                    index: d.1,
                    leaf,
                },
            },
        })?;
    }
    Ok(())
}

/// The node refers to what each definition does, moved along the path.
pub(crate) fn push_shifts(
    alloc: Global,
    rules: &mut Vec<Owned>,
    function: u32,
    to: Node,
    path: &[PathStep],
    found: &[(u32, u32)],
) -> Result<(), Memory>
    ensures { OnOk result (rules.new.items ≡ rules.old.items ++ shifts function to path.now found.now) }
{
    for n in 0..found.len() {
        let d = found[n];
        rules.push(Owned {
            function,
            rule: Rule::Shift {
                to,
                source: Node {
                    place: d.0,
                    index: d.1,
                    leaf: 0,
                },
                path: copied(alloc, path)?,
            },
        })?;
    }
    Ok(())
}

/// The node refers to the boxes of the type that each definition does.
pub(crate) fn push_keeps(
    rules: &mut Vec<Owned>,
    function: u32,
    to: Node,
    target: u32,
    found: &[(u32, u32)],
) -> Result<(), Memory>
    ensures { OnOk result (rules.new.items ≡ rules.old.items ++ keeps function to target found.now) }
{
    for n in 0..found.len() {
        let d = found[n];
        rules.push(Owned {
            function,
            rule: Rule::Keep {
                to,
                source: Node {
                    place: d.0,
                    index: d.1,
                    leaf: 0,
                },
                target,
            },
        })?;
    }
    Ok(())
}

/// The node refers to what stands along the path behind each definition.
pub(crate) fn push_loads(
    alloc: Global,
    rules: &mut Vec<Owned>,
    function: u32,
    to: Node,
    path: &[PathStep],
    found: &[(u32, u32)],
) -> Result<(), Memory>
    ensures { OnOk result (rules.new.items ≡ rules.old.items ++ loads function to path.now found.now) }
{
    for n in 0..found.len() {
        let d = found[n];
        rules.push(Owned {
            function,
            rule: Rule::Load {
                to,
                at: Node {
                    place: d.0,
                    index: d.1,
                    leaf: 0,
                },
                path: copied(alloc, path)?,
            },
        })?;
    }
    Ok(())
}

/// What stands along the path behind each definition refers to what the node does.
pub(crate) fn push_stores(
    alloc: Global,
    rules: &mut Vec<Owned>,
    function: u32,
    path: &[PathStep],
    source: Node,
    found: &[(u32, u32)],
) -> Result<(), Memory>
    ensures { OnOk result (rules.new.items ≡ rules.old.items ++ stores function path.now source found.now) }
{
    for n in 0..found.len() {
        let d = found[n];
        rules.push(Owned {
            function,
            rule: Rule::Store {
                at: Node {
                    place: d.0,
                    index: d.1,
                    leaf: 0,
                },
                path: copied(alloc, path)?,
                source,
            },
        })?;
    }
    Ok(())
}

/// Each leaf of what stands at the index refers to what that leaf of each definition does.
pub(crate) fn push_value_copies(
    rules: &mut Vec<Owned>,
    function: u32,
    place: u32,
    index: u32,
    leaves: &[Path],
    found: &[(u32, u32)],
) -> Result<(), Memory>
    ensures { OnOk result (rules.new.items ≡ rules.old.items ++ value_copies function place index 0 leaves.now found.now) }
{
    for a in 0..leaves.len() {
        let leaf = small(a)?;
        push_copies(rules, function, Node { place, index, leaf }, leaf, found)?;
    }
    Ok(())
}

/// Each leaf refers to what stands there behind each definition.
pub(crate) fn push_value_loads(
    alloc: Global,
    rules: &mut Vec<Owned>,
    function: u32,
    place: u32,
    index: u32,
    leaves: &[Path],
    found: &[(u32, u32)],
) -> Result<(), Memory>
    ensures { OnOk result (rules.new.items ≡ rules.old.items ++ value_loads function place index 0 leaves.now found.now) }
{
    for a in 0..leaves.len() {
        let leaf = small(a)?;
        push_loads(
            alloc,
            rules,
            function,
            Node { place, index, leaf },
            leaves[a].as_slice(),
            found,
        )?;
    }
    Ok(())
}

/// What stands at each leaf behind each definition refers to what the leaf does.
pub(crate) fn push_value_stores(
    alloc: Global,
    rules: &mut Vec<Owned>,
    function: u32,
    place: u32,
    index: u32,
    leaves: &[Path],
    found: &[(u32, u32)],
) -> Result<(), Memory>
    ensures { OnOk result (rules.new.items ≡ rules.old.items ++ value_stores function place index 0 leaves.now found.now) }
{
    for a in 0..leaves.len() {
        let leaf = small(a)?;
        push_stores(
            alloc,
            rules,
            function,
            leaves[a].as_slice(),
            Node { place, index, leaf },
            found,
        )?;
    }
    Ok(())
}
