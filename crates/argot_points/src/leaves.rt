// Values that become others, leaf by leaf.
ghost use Rattle.std.specs.Prelude.{◌≡◌, ℕ, ◌<◌, ◌^◌, Some, length, slice_get, IsTrue, true, false};
ghost use Rattle.argot_links.specs.Table.{has};
ghost use Rattle.argot_facts.specs.Numbers.{node};
ghost use Rattle.argot_points.specs.Advancing.{Advances};
ghost use Rattle.argot_points.specs.Meaning.{IsRow, NodeTo, IsLeafRow};
ghost use Rattle.argot_points.specs.Solved.{Fits, IsSound, IsPart, room_of};

use crate::moves::copy;
use crate::system::{System, Tables};
use argot_facts::Node;
use argot_points_rules::same_path;
use argot_text::{Path, PathStep};

/// The path of a leaf.
fn leaf_path(leaves: &[Path], leaf: u32) -> &Path
    requires { leaf < length leaves.now }
    ensures { slice_get leaves.now leaf ≡ Some result.now }
{
    &leaves[leaf as usize]
}

/// Whether the leaf has the path.
pub(crate) fn is_leaf(leaves: &[Path], leaf: u32, path: &[PathStep]) -> bool
    requires { leaf < length leaves.now }
    ensures yes { result ≡ true → slice_get leaves.now leaf ≡ Some path.now }
    ensures no { slice_get leaves.now leaf ≡ Some path.now → result ≡ true }
{
    same_path(leaf_path(leaves, leaf).as_slice(), path)
}

/// The leaf refers to all that the node does, if it has the path.
fn enter_leaf(
    system: &System,
    tables: &mut Tables,
    place: u32,
    index: u32,
    leaves: &[Path],
    path: &[PathStep],
    other: Node,
    leaf: u32,
) -> bool
    requires fits { Fits system.now }
    requires inside { leaf < length leaves.now }
    requires rule { slice_get leaves.now leaf ≡ Some path.now → (m n y : ℕ) → IsRow system.now m (node place index leaf) → IsRow system.now n other → NodeTo system.now n y → NodeTo system.now m y }
    requires sound { IsSound system.now tables.old }
    ensures sound { IsSound system.now tables.new }
    ensures advances { Advances system.now tables.old tables.new }
    ensures closed { result ≡ false → slice_get leaves.now leaf ≡ Some path.now → (m n : ℕ) → IsRow system.now m (node place index leaf) → IsRow system.now n other → IsPart tables.new.refers n m }
    ensures same { result ≡ false → tables.new ≡ tables.old }
    ensures room { IsTrue result → room_of tables.new < room_of tables.old }
{
    if !is_leaf(leaves, leaf, path) {
        return false;
    }
    let here = Node { place, index, leaf };
    copy(system, tables, here, other)
}

/// The leaf with the path of a parameter refers to all that the node does.
pub(crate) fn enter_leaves(
    system: &System,
    tables: &mut Tables,
    place: u32,
    index: u32,
    leaves: &[Path],
    path: &[PathStep],
    other: Node,
) -> bool
    requires fits { Fits system.now }
    requires few { length leaves.now < 2 ^ 32 }
    requires rule { (n m y : ℕ) → IsLeafRow system.now place index leaves.now path.now m → IsRow system.now n other → NodeTo system.now n y → NodeTo system.now m y }
    requires sound { IsSound system.now tables.old }
    ensures sound { IsSound system.now tables.new }
    ensures advances { Advances system.now tables.old tables.new }
    ensures closed { result ≡ false → (n m : ℕ) → IsLeafRow system.now place index leaves.now path.now m → IsRow system.now n other → IsPart tables.new.refers n m }
    ensures same { result ≡ false → tables.new ≡ tables.old }
    ensures room { IsTrue result → room_of tables.new < room_of tables.old }
{
    let mut changed = false;
    for leaf in 0..leaves.len() as u32 {
        if enter_leaf(system, tables, place, index, leaves, path, other, leaf) {
            changed = true;
        }
    }
    changed
}

/// The node refers to all that the leaf does, if that has the path.
fn hand_back_leaf(
    system: &System,
    tables: &mut Tables,
    place: u32,
    index: u32,
    leaves: &[Path],
    path: &[PathStep],
    other: Node,
    leaf: u32,
) -> bool
    requires fits { Fits system.now }
    requires inside { leaf < length leaves.now }
    requires rule { slice_get leaves.now leaf ≡ Some path.now → (n m y : ℕ) → IsRow system.now n other → IsRow system.now m (node place index leaf) → NodeTo system.now m y → NodeTo system.now n y }
    requires sound { IsSound system.now tables.old }
    ensures sound { IsSound system.now tables.new }
    ensures advances { Advances system.now tables.old tables.new }
    ensures closed { result ≡ false → slice_get leaves.now leaf ≡ Some path.now → (n m : ℕ) → IsRow system.now n other → IsRow system.now m (node place index leaf) → IsPart tables.new.refers m n }
    ensures same { result ≡ false → tables.new ≡ tables.old }
    ensures room { IsTrue result → room_of tables.new < room_of tables.old }
{
    if !is_leaf(leaves, leaf, path) {
        return false;
    }
    let here = Node { place, index, leaf };
    copy(system, tables, other, here)
}

/// The node refers to all that the leaf with the path of a handed value does.
pub(crate) fn hand_back_leaves(
    system: &System,
    tables: &mut Tables,
    place: u32,
    index: u32,
    leaves: &[Path],
    path: &[PathStep],
    other: Node,
) -> bool
    requires fits { Fits system.now }
    requires few { length leaves.now < 2 ^ 32 }
    requires rule { (n m y : ℕ) → IsLeafRow system.now place index leaves.now path.now m → IsRow system.now n other → NodeTo system.now m y → NodeTo system.now n y }
    requires sound { IsSound system.now tables.old }
    ensures sound { IsSound system.now tables.new }
    ensures advances { Advances system.now tables.old tables.new }
    ensures closed { result ≡ false → (n m : ℕ) → IsLeafRow system.now place index leaves.now path.now m → IsRow system.now n other → IsPart tables.new.refers m n }
    ensures same { result ≡ false → tables.new ≡ tables.old }
    ensures room { IsTrue result → room_of tables.new < room_of tables.old }
{
    let mut changed = false;
    for leaf in 0..leaves.len() as u32 {
        if hand_back_leaf(system, tables, place, index, leaves, path, other, leaf) {
            changed = true;
        }
    }
    changed
}
