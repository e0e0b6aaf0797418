// What each rule does to the tables. Each step says what holds where it answers that nothing changed, so that none has to
// say what its own writes do to what it looked at.
ghost use Rattle.std.specs.Prelude.{◌≡◌, ℕ, ◌+◌, ◌<◌, ◌≤◌, length, slice_get, IsTrue, true, false};
ghost use Rattle.argot_links.specs.Table.{has};
ghost use Rattle.argot_points.specs.Advancing.{Advances};
ghost use Rattle.argot_points.specs.Meaning.{IsRow, IsColumn, NodeTo, PlaceTo, IsMoved, IsKept, IsRoot};
ghost use Rattle.argot_points.specs.Solved.{Fits, IsSound, IsPart, place_row, room_of};

use crate::system::{System, Tables};
use argot_facts::Node;
use argot_text::PathStep;

/// The node of a row refers to the location y.
pub(crate) fn add_to_row(system: &System, tables: &mut Tables, row: u32, y: u32) -> bool
    requires fits { Fits system.now }
    requires row { row < length system.now.nodes.items }
    requires column { y < length system.now.locations.items }
    requires rule { NodeTo system.now row y }
    requires sound { IsSound system.now tables.old }
    ensures sound { IsSound system.now tables.new }
    ensures advances { Advances system.now tables.old tables.new }
    ensures closed { has tables.new.refers row y ≡ true }
    ensures live { tables.new.live ≡ tables.old.live }
    ensures same { result ≡ false → tables.new ≡ tables.old }
    ensures room { IsTrue result → room_of tables.new < room_of tables.old }
{
    if tables.refers.add(row, y) {
        tables.grown.put(row);
        return true;
    }
    false
}

/// The node of row n refers to all that the node of row m does.
fn join_nodes(system: &System, tables: &mut Tables, m: u32, n: u32) -> bool
    requires fits { Fits system.now }
    requires source { m < length system.now.nodes.items }
    requires target { n < length system.now.nodes.items }
    requires rule { (y : ℕ) → NodeTo system.now m y → NodeTo system.now n y }
    requires sound { IsSound system.now tables.old }
    ensures sound { IsSound system.now tables.new }
    ensures advances { Advances system.now tables.old tables.new }
    ensures closed { IsPart tables.new.refers m n }
    ensures live { tables.new.live ≡ tables.old.live }
    ensures same { result ≡ false → tables.new ≡ tables.old }
    ensures room { IsTrue result → room_of tables.new < room_of tables.old }
{
    if tables.refers.join(m, n) {
        tables.grown.put(n);
        return true;
    }
    false
}

/// The node of row n refers to all that the location z does.
fn load_row_of(system: &System, tables: &mut Tables, z: u32, n: u32) -> bool
    requires fits { Fits system.now }
    requires source { z < length system.now.locations.items }
    requires target { n < length system.now.nodes.items }
    requires rule { (y : ℕ) → PlaceTo system.now z y → NodeTo system.now n y }
    requires sound { IsSound system.now tables.old }
    ensures sound { IsSound system.now tables.new }
    ensures advances { Advances system.now tables.old tables.new }
    ensures closed { IsPart tables.new.refers (place_row system.now z) n }
    ensures live { tables.new.live ≡ tables.old.live }
    ensures same { result ≡ false → tables.new ≡ tables.old }
    ensures room { IsTrue result → room_of tables.new < room_of tables.old }
{
    if tables.refers.join(system.nodes.len() as u32 + z, n) {
        tables.grown.put(n);
        return true;
    }
    false
}

/// The location z refers to all that the node of row n does.
fn store_row_of(system: &System, tables: &mut Tables, n: u32, z: u32) -> bool
    requires fits { Fits system.now }
    requires source { n < length system.now.nodes.items }
    requires target { z < length system.now.locations.items }
    requires rule { (y : ℕ) → NodeTo system.now n y → PlaceTo system.now z y }
    requires sound { IsSound system.now tables.old }
    ensures sound { IsSound system.now tables.new }
    ensures advances { Advances system.now tables.old tables.new }
    ensures closed { IsPart tables.new.refers n (place_row system.now z) }
    ensures live { tables.new.live ≡ tables.old.live }
    ensures same { result ≡ false → tables.new ≡ tables.old }
    ensures room { IsTrue result → room_of tables.new < room_of tables.old }
{
    let row = system.nodes.len() as u32 + z;
    if tables.refers.join(n, row) {
        tables.grown.put(row);
        return true;
    }
    false
}

/// The node refers to the objects of the site.
pub(crate) fn put(system: &System, tables: &mut Tables, to: Node, site: u32) -> bool
    requires fits { Fits system.now }
    requires rule { (n y : ℕ) → IsRow system.now n to → IsRoot system.now site y → NodeTo system.now n y }
    requires sound { IsSound system.now tables.old }
    ensures sound { IsSound system.now tables.new }
    ensures advances { Advances system.now tables.old tables.new }
    ensures closed { (n y : ℕ) → IsRow system.now n to → IsRoot system.now site y → has tables.new.refers n y ≡ true }
    ensures live { tables.new.live ≡ tables.old.live }
    ensures same { result ≡ false → tables.new ≡ tables.old }
    ensures room { IsTrue result → room_of tables.new < room_of tables.old }
{
    match system.row(to) {
        Some(n) => match system.root(site) {
            Some(y) => add_to_row(system, tables, n, y),
            None => false,
        },
        None => false,
    }
}

/// The node refers to all that another does.
pub(crate) fn copy(system: &System, tables: &mut Tables, to: Node, source: Node) -> bool
    requires fits { Fits system.now }
    requires rule { (n m y : ℕ) → IsRow system.now n to → IsRow system.now m source → NodeTo system.now m y → NodeTo system.now n y }
    requires sound { IsSound system.now tables.old }
    ensures sound { IsSound system.now tables.new }
    ensures advances { Advances system.now tables.old tables.new }
    ensures closed { result ≡ false → (n m : ℕ) → IsRow system.now n to → IsRow system.now m source → IsPart tables.new.refers m n }
    ensures live { tables.new.live ≡ tables.old.live }
    ensures same { result ≡ false → tables.new ≡ tables.old }
    ensures room { IsTrue result → room_of tables.new < room_of tables.old }
{
    match system.row(to) {
        Some(n) => match system.row(source) {
            Some(m) => join_nodes(system, tables, m, n),
            None => false,
        },
        None => false,
    }
}

/// The node of row n refers to the location y moved along the path, if row m has y.
fn shift_at(system: &System, tables: &mut Tables, n: u32, m: u32, path: &[PathStep], y: u32) -> bool
    requires fits { Fits system.now }
    requires target { n < length system.now.nodes.items }
    requires source { m < length system.now.nodes.items }
    requires column { y < length system.now.locations.items }
    requires rule { NodeTo system.now m y → (z : ℕ) → IsMoved system.now y path.now z → NodeTo system.now n z }
    requires sound { IsSound system.now tables.old }
    ensures sound { IsSound system.now tables.new }
    ensures advances { Advances system.now tables.old tables.new }
    ensures closed { result ≡ false → has tables.new.refers m y ≡ true → (z : ℕ) → IsMoved system.now y path.now z → has tables.new.refers n z ≡ true }
    ensures live { tables.new.live ≡ tables.old.live }
    ensures same { result ≡ false → tables.new ≡ tables.old }
    ensures room { IsTrue result → room_of tables.new < room_of tables.old }
{
    if !tables.refers.has(m, y) {
        return false;
    }
    match system.moved(y, path) {
        Some(z) => add_to_row(system, tables, n, z),
        None => false,
    }
}

/// The node of row n refers to all that row m does, moved along the path.
fn shift_row(system: &System, tables: &mut Tables, n: u32, m: u32, path: &[PathStep]) -> bool
    requires fits { Fits system.now }
    requires target { n < length system.now.nodes.items }
    requires source { m < length system.now.nodes.items }
    requires rule { (y : ℕ) → NodeTo system.now m y → (z : ℕ) → IsMoved system.now y path.now z → NodeTo system.now n z }
    requires sound { IsSound system.now tables.old }
    ensures sound { IsSound system.now tables.new }
    ensures advances { Advances system.now tables.old tables.new }
    ensures closed { result ≡ false → (y : ℕ) → has tables.new.refers m y ≡ true → (z : ℕ) → IsMoved system.now y path.now z → has tables.new.refers n z ≡ true }
    ensures live { tables.new.live ≡ tables.old.live }
    ensures same { result ≡ false → tables.new ≡ tables.old }
    ensures room { IsTrue result → room_of tables.new < room_of tables.old }
{
    let mut changed = false;
    let mut from = 0;
    while let Some(y) = tables.refers.next_from(m, from) {
        if shift_at(system, tables, n, m, path, y) {
            changed = true;
        }
        from = y + 1;
    }
    changed
}

/// The node refers to all that another does, moved along the path.
pub(crate) fn shift(
    system: &System,
    tables: &mut Tables,
    to: Node,
    source: Node,
    path: &[PathStep],
) -> bool
    requires fits { Fits system.now }
    requires rule { (n m : ℕ) → IsRow system.now n to → IsRow system.now m source → (y : ℕ) → NodeTo system.now m y → (z : ℕ) → IsMoved system.now y path.now z → NodeTo system.now n z }
    requires sound { IsSound system.now tables.old }
    ensures sound { IsSound system.now tables.new }
    ensures advances { Advances system.now tables.old tables.new }
    ensures closed { result ≡ false → (n m : ℕ) → IsRow system.now n to → IsRow system.now m source → (y : ℕ) → has tables.new.refers m y ≡ true → (z : ℕ) → IsMoved system.now y path.now z → has tables.new.refers n z ≡ true }
    ensures live { tables.new.live ≡ tables.old.live }
    ensures same { result ≡ false → tables.new ≡ tables.old }
    ensures room { IsTrue result → room_of tables.new < room_of tables.old }
{
    match system.row(to) {
        Some(n) => match system.row(source) {
            Some(m) => shift_row(system, tables, n, m, path),
            None => false,
        },
        None => false,
    }
}

/// The node of row n refers to the location y if row m does and that is of the type.
fn keep_at(system: &System, tables: &mut Tables, n: u32, m: u32, target: u32, y: u32) -> bool
    requires fits { Fits system.now }
    requires target { n < length system.now.nodes.items }
    requires source { m < length system.now.nodes.items }
    requires column { y < length system.now.locations.items }
    requires rule { NodeTo system.now m y → IsKept system.now y target → NodeTo system.now n y }
    requires sound { IsSound system.now tables.old }
    ensures sound { IsSound system.now tables.new }
    ensures advances { Advances system.now tables.old tables.new }
    ensures closed { result ≡ false → has tables.new.refers m y ≡ true → IsKept system.now y target → has tables.new.refers n y ≡ true }
    ensures live { tables.new.live ≡ tables.old.live }
    ensures same { result ≡ false → tables.new ≡ tables.old }
    ensures room { IsTrue result → room_of tables.new < room_of tables.old }
{
    if !system.is_kept(y, target) {
        return false;
    }
    if tables.refers.has(m, y) {
        return add_to_row(system, tables, n, y);
    }
    false
}

/// The node of row n refers to the boxes of the type that row m does.
fn keep_row(system: &System, tables: &mut Tables, n: u32, m: u32, target: u32) -> bool
    requires fits { Fits system.now }
    requires target { n < length system.now.nodes.items }
    requires source { m < length system.now.nodes.items }
    requires rule { (y : ℕ) → NodeTo system.now m y → IsKept system.now y target → NodeTo system.now n y }
    requires sound { IsSound system.now tables.old }
    ensures sound { IsSound system.now tables.new }
    ensures advances { Advances system.now tables.old tables.new }
    ensures closed { result ≡ false → (y : ℕ) → has tables.new.refers m y ≡ true → IsKept system.now y target → has tables.new.refers n y ≡ true }
    ensures live { tables.new.live ≡ tables.old.live }
    ensures same { result ≡ false → tables.new ≡ tables.old }
    ensures room { IsTrue result → room_of tables.new < room_of tables.old }
{
    let mut changed = false;
    let mut from = 0;
    while let Some(y) = tables.refers.next_from(m, from) {
        if keep_at(system, tables, n, m, target, y) {
            changed = true;
        }
        from = y + 1;
    }
    changed
}

/// The node refers to the boxes of the type that another does.
pub(crate) fn keep(
    system: &System,
    tables: &mut Tables,
    to: Node,
    source: Node,
    target: u32,
) -> bool
    requires fits { Fits system.now }
    requires rule { (n m : ℕ) → IsRow system.now n to → IsRow system.now m source → (y : ℕ) → NodeTo system.now m y → IsKept system.now y target → NodeTo system.now n y }
    requires sound { IsSound system.now tables.old }
    ensures sound { IsSound system.now tables.new }
    ensures advances { Advances system.now tables.old tables.new }
    ensures closed { result ≡ false → (n m : ℕ) → IsRow system.now n to → IsRow system.now m source → (y : ℕ) → has tables.new.refers m y ≡ true → IsKept system.now y target → has tables.new.refers n y ≡ true }
    ensures live { tables.new.live ≡ tables.old.live }
    ensures same { result ≡ false → tables.new ≡ tables.old }
    ensures room { IsTrue result → room_of tables.new < room_of tables.old }
{
    match system.row(to) {
        Some(n) => match system.row(source) {
            Some(m) => keep_row(system, tables, n, m, target),
            None => false,
        },
        None => false,
    }
}

/// The node of row n refers to all that stands along the path at the location y, if row m has y.
fn load_at(system: &System, tables: &mut Tables, n: u32, m: u32, path: &[PathStep], y: u32) -> bool
    requires fits { Fits system.now }
    requires target { n < length system.now.nodes.items }
    requires source { m < length system.now.nodes.items }
    requires column { y < length system.now.locations.items }
    requires rule { NodeTo system.now m y → (z : ℕ) → IsMoved system.now y path.now z → (w : ℕ) → PlaceTo system.now z w → NodeTo system.now n w }
    requires sound { IsSound system.now tables.old }
    ensures sound { IsSound system.now tables.new }
    ensures advances { Advances system.now tables.old tables.new }
    ensures closed { result ≡ false → has tables.new.refers m y ≡ true → (z : ℕ) → IsMoved system.now y path.now z → IsPart tables.new.refers (place_row system.now z) n }
    ensures live { tables.new.live ≡ tables.old.live }
    ensures same { result ≡ false → tables.new ≡ tables.old }
    ensures room { IsTrue result → room_of tables.new < room_of tables.old }
{
    if !tables.refers.has(m, y) {
        return false;
    }
    match system.moved(y, path) {
        Some(z) => load_row_of(system, tables, z, n),
        None => false,
    }
}

/// The node of row n refers to all that stands along the path behind row m.
fn load_row(system: &System, tables: &mut Tables, n: u32, m: u32, path: &[PathStep]) -> bool
    requires fits { Fits system.now }
    requires target { n < length system.now.nodes.items }
    requires source { m < length system.now.nodes.items }
    requires rule { (y : ℕ) → NodeTo system.now m y → (z : ℕ) → IsMoved system.now y path.now z → (w : ℕ) → PlaceTo system.now z w → NodeTo system.now n w }
    requires sound { IsSound system.now tables.old }
    ensures sound { IsSound system.now tables.new }
    ensures advances { Advances system.now tables.old tables.new }
    ensures closed { result ≡ false → (y : ℕ) → has tables.new.refers m y ≡ true → (z : ℕ) → IsMoved system.now y path.now z → IsPart tables.new.refers (place_row system.now z) n }
    ensures live { tables.new.live ≡ tables.old.live }
    ensures same { result ≡ false → tables.new ≡ tables.old }
    ensures room { IsTrue result → room_of tables.new < room_of tables.old }
{
    let mut changed = false;
    let mut from = 0;
    while let Some(y) = tables.refers.next_from(m, from) {
        if load_at(system, tables, n, m, path, y) {
            changed = true;
        }
        from = y + 1;
    }
    changed
}

/// The node refers to all that stands along the path behind another.
pub(crate) fn load(
    system: &System,
    tables: &mut Tables,
    to: Node,
    at: Node,
    path: &[PathStep],
) -> bool
    requires fits { Fits system.now }
    requires rule { (n m : ℕ) → IsRow system.now n to → IsRow system.now m at → (y : ℕ) → NodeTo system.now m y → (z : ℕ) → IsMoved system.now y path.now z → (w : ℕ) → PlaceTo system.now z w → NodeTo system.now n w }
    requires sound { IsSound system.now tables.old }
    ensures sound { IsSound system.now tables.new }
    ensures advances { Advances system.now tables.old tables.new }
    ensures closed { result ≡ false → (n m : ℕ) → IsRow system.now n to → IsRow system.now m at → (y : ℕ) → has tables.new.refers m y ≡ true → (z : ℕ) → IsMoved system.now y path.now z → IsPart tables.new.refers (place_row system.now z) n }
    ensures live { tables.new.live ≡ tables.old.live }
    ensures same { result ≡ false → tables.new ≡ tables.old }
    ensures room { IsTrue result → room_of tables.new < room_of tables.old }
{
    match system.row(to) {
        Some(n) => match system.row(at) {
            Some(m) => load_row(system, tables, n, m, path),
            None => false,
        },
        None => false,
    }
}

/// What stands along the path at the location y refers to all that row n does, if row m has y.
fn store_at(system: &System, tables: &mut Tables, n: u32, m: u32, path: &[PathStep], y: u32) -> bool
    requires fits { Fits system.now }
    requires source { n < length system.now.nodes.items }
    requires target { m < length system.now.nodes.items }
    requires column { y < length system.now.locations.items }
    requires rule { NodeTo system.now m y → (z : ℕ) → IsMoved system.now y path.now z → (w : ℕ) → NodeTo system.now n w → PlaceTo system.now z w }
    requires sound { IsSound system.now tables.old }
    ensures sound { IsSound system.now tables.new }
    ensures advances { Advances system.now tables.old tables.new }
    ensures closed { result ≡ false → has tables.new.refers m y ≡ true → (z : ℕ) → IsMoved system.now y path.now z → IsPart tables.new.refers n (place_row system.now z) }
    ensures live { tables.new.live ≡ tables.old.live }
    ensures same { result ≡ false → tables.new ≡ tables.old }
    ensures room { IsTrue result → room_of tables.new < room_of tables.old }
{
    if !tables.refers.has(m, y) {
        return false;
    }
    match system.moved(y, path) {
        Some(z) => store_row_of(system, tables, n, z),
        None => false,
    }
}

/// What stands along the path behind row m refers to all that row n does.
fn store_row(system: &System, tables: &mut Tables, n: u32, m: u32, path: &[PathStep]) -> bool
    requires fits { Fits system.now }
    requires source { n < length system.now.nodes.items }
    requires target { m < length system.now.nodes.items }
    requires rule { (y : ℕ) → NodeTo system.now m y → (z : ℕ) → IsMoved system.now y path.now z → (w : ℕ) → NodeTo system.now n w → PlaceTo system.now z w }
    requires sound { IsSound system.now tables.old }
    ensures sound { IsSound system.now tables.new }
    ensures advances { Advances system.now tables.old tables.new }
    ensures closed { result ≡ false → (y : ℕ) → has tables.new.refers m y ≡ true → (z : ℕ) → IsMoved system.now y path.now z → IsPart tables.new.refers n (place_row system.now z) }
    ensures live { tables.new.live ≡ tables.old.live }
    ensures same { result ≡ false → tables.new ≡ tables.old }
    ensures room { IsTrue result → room_of tables.new < room_of tables.old }
{
    let mut changed = false;
    let mut from = 0;
    while let Some(y) = tables.refers.next_from(m, from) {
        if store_at(system, tables, n, m, path, y) {
            changed = true;
        }
        from = y + 1;
    }
    changed
}

/// What stands along the path behind a node refers to all that another does.
pub(crate) fn store(
    system: &System,
    tables: &mut Tables,
    at: Node,
    path: &[PathStep],
    source: Node,
) -> bool
    requires fits { Fits system.now }
    requires rule { (n m : ℕ) → IsRow system.now n source → IsRow system.now m at → (y : ℕ) → NodeTo system.now m y → (z : ℕ) → IsMoved system.now y path.now z → (w : ℕ) → NodeTo system.now n w → PlaceTo system.now z w }
    requires sound { IsSound system.now tables.old }
    ensures sound { IsSound system.now tables.new }
    ensures advances { Advances system.now tables.old tables.new }
    ensures closed { result ≡ false → (n m : ℕ) → IsRow system.now n source → IsRow system.now m at → (y : ℕ) → has tables.new.refers m y ≡ true → (z : ℕ) → IsMoved system.now y path.now z → IsPart tables.new.refers n (place_row system.now z) }
    ensures live { tables.new.live ≡ tables.old.live }
    ensures same { result ≡ false → tables.new ≡ tables.old }
    ensures room { IsTrue result → room_of tables.new < room_of tables.old }
{
    match system.row(source) {
        Some(n) => match system.row(at) {
            Some(m) => store_row(system, tables, n, m, path),
            None => false,
        },
        None => false,
    }
}
