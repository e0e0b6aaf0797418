// What targets are handed of the value by which the callee is found: each function what it is meant by.
ghost use Rattle.std.specs.Prelude.{◌≡◌, ℕ, ◌<◌, ◌^◌, Bool, [], Some, length, slice_get, IfSome, IsNone, IsTrue, true, false};
ghost use Rattle.argot_links.specs.Table.{has};
ghost use Rattle.argot_plain.specs.declared.instructions.Callee.{Callee as Callees};
ghost use Rattle.argot_points.specs.Advancing.{Advances};
ghost use Rattle.argot_points.specs.Meaning.{IsRow, NodeTo, IsParam, IsParamOf, IsChosen, IsChosenBy};
ghost use Rattle.argot_points.specs.Solved.{Fits, IsSound, room_of};

use crate::leaves::is_leaf;
use crate::moves::add_to_row;
use crate::system::{System, Tables};
use argot_facts::Node;
use argot_plain::Callee;
use argot_points_rules::leaves_of;
use argot_text::Path;

/// The number of the leaf with the empty path.
fn whole_leaf(leaves: &[Path]) -> Option<u32>
    requires few { length leaves.now < 2 ^ 32 }
    ensures found { IfSome result (λ a. slice_get leaves.now a ≡ Some []) }
    ensures none { IsNone result → (a : ℕ) → slice_get leaves.now a ≡ Some [] → ⊥ }
{
    for leaf in 0..leaves.len() as u32 {
        if is_leaf(leaves, leaf, &[]) {
            return Some(leaf);
        }
    }
    None
}

impl<'a> System<'a> {
    /// The node of a parameter's leaf with the empty path.
    fn whole_param(&self, g: u32, param: usize) -> Option<u32>
        requires fits { Fits self.now }
        requires inside { g < length self.now.program.now.functions }
        ensures found { IfSome result (λ m. IsParamOf self.now g param [] m) }
        ensures only { IfSome result (λ m. (n : ℕ) → IsParamOf self.now g param [] n → n ≡ m) }
        ensures none { IsNone result → (n : ℕ) → IsParamOf self.now g param [] n → ⊥ }
    {
        let function = self.program.function(g as usize);
        if param >= function.params as usize {
            return None;
        }
        let param = param as u32;
        match whole_leaf(leaves_of(function, param)) {
            Some(leaf) => self.row(Node {
                place: function.entry,
                index: param,
                leaf,
            }),
            None => None,
        }
    }

    /// The node of the parameter that a handed value becomes at a target, at the leaf with the empty path.
    fn param_node(&self, place: u32, g: u32, takes: bool, index: u32) -> Option<u32>
        requires fits { Fits self.now }
        requires inside { g < length self.now.program.now.functions }
        ensures found { IfSome result (λ m. IsParam self.now place g takes index [] m) }
        ensures only { IfSome result (λ m. (n : ℕ) → IsParam self.now place g takes index [] n → n ≡ m) }
        ensures none { IsNone result → (n : ℕ) → IsParam self.now place g takes index [] n → ⊥ }
    {
        match self.param(place, takes, index) {
            Some(param) => self.whole_param(g, param),
            None => None,
        }
    }

    /// The same at the function that the callee means at a location.
    fn chosen_by(&self, callee: &Callee, place: u32, index: u32, y: u32) -> Option<u32>
        requires fits { Fits self.now }
        requires inside { y < length self.now.locations.items }
        ensures found { IfSome result (λ m. IsChosenBy self.now callee.now place index y m) }
        ensures only { IfSome result (λ m. (n : ℕ) → IsChosenBy self.now callee.now place index y n → n ≡ m) }
        ensures none { IsNone result → (n : ℕ) → IsChosenBy self.now callee.now place index y n → ⊥ }
    {
        match self.means(callee, y) {
            Some(target) => self.param_node(place, target.0, target.1, index),
            None => None,
        }
    }

    /// And at the callee of the place.
    fn chosen(&self, place: u32, index: u32, y: u32) -> Option<u32>
        requires fits { Fits self.now }
        requires inside { y < length self.now.locations.items }
        ensures found { IfSome result (λ m. IsChosen self.now place index y m) }
        ensures only { IfSome result (λ m. (n : ℕ) → IsChosen self.now place index y n → n ≡ m) }
        ensures none { IsNone result → (n : ℕ) → IsChosen self.now place index y n → ⊥ }
    {
        match self.calling(place) {
            Some(calling) => self.chosen_by(calling.callee, place, index, y),
            None => None,
        }
    }
}

/// The function that the callee means at the location y gets y, if the row has it.
fn choose_at(system: &System, tables: &mut Tables, place: u32, index: u32, row: u32, y: u32) -> bool
    requires fits { Fits system.now }
    requires row { row < length system.now.nodes.items }
    requires column { y < length system.now.locations.items }
    requires rule { NodeTo system.now row y → (m : ℕ) → IsChosen system.now place index y m → NodeTo system.now m y }
    requires sound { IsSound system.now tables.old }
    ensures sound { IsSound system.now tables.new }
    ensures advances { Advances system.now tables.old tables.new }
    ensures closed { result ≡ false → has tables.new.refers row y ≡ true → (m : ℕ) → IsChosen system.now place index y m → has tables.new.refers m y ≡ true }
    ensures live { tables.new.live ≡ tables.old.live }
    ensures same { result ≡ false → tables.new ≡ tables.old }
    ensures room { IsTrue result → room_of tables.new < room_of tables.old }
{
    if !tables.refers.has(row, y) {
        return false;
    }
    match system.chosen(place, index, y) {
        Some(m) => add_to_row(system, tables, m, y),
        None => false,
    }
}

/// Each function that the callee means by what the row refers to gets what it is meant by.
fn choose_row(system: &System, tables: &mut Tables, place: u32, index: u32, row: u32) -> bool
    requires fits { Fits system.now }
    requires row { row < length system.now.nodes.items }
    requires rule { (y : ℕ) → NodeTo system.now row y → (m : ℕ) → IsChosen system.now place index y m → NodeTo system.now m y }
    requires sound { IsSound system.now tables.old }
    ensures sound { IsSound system.now tables.new }
    ensures advances { Advances system.now tables.old tables.new }
    ensures closed { result ≡ false → (y : ℕ) → has tables.new.refers row y ≡ true → (m : ℕ) → IsChosen system.now place index y m → has tables.new.refers m y ≡ true }
    ensures live { tables.new.live ≡ tables.old.live }
    ensures same { result ≡ false → tables.new ≡ tables.old }
    ensures room { IsTrue result → room_of tables.new < room_of tables.old }
{
    let mut changed = false;
    let mut from = 0;
    while let Some(y) = tables.refers.next_from(row, from) {
        if choose_at(system, tables, place, index, row, y) {
            changed = true;
        }
        from = y + 1;
    }
    changed
}

/// Each function that the callee means by what the node refers to gets what it is meant by.
pub(crate) fn choose(system: &System, tables: &mut Tables, place: u32, by: Node, index: u32) -> bool
    requires fits { Fits system.now }
    requires rule { (n y m : ℕ) → IsRow system.now n by → NodeTo system.now n y → IsChosen system.now place index y m → NodeTo system.now m y }
    requires sound { IsSound system.now tables.old }
    ensures sound { IsSound system.now tables.new }
    ensures advances { Advances system.now tables.old tables.new }
    ensures closed { result ≡ false → (n y m : ℕ) → IsRow system.now n by → has tables.new.refers n y ≡ true → IsChosen system.now place index y m → has tables.new.refers m y ≡ true }
    ensures live { tables.new.live ≡ tables.old.live }
    ensures same { result ≡ false → tables.new ≡ tables.old }
    ensures room { IsTrue result → room_of tables.new < room_of tables.old }
{
    match system.row(by) {
        Some(row) => choose_row(system, tables, place, index, row),
        None => false,
    }
}
