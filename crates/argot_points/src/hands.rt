// What a rule of a call does at a target.
ghost use Rattle.std.specs.Prelude.{◌≡◌, ℕ, ◌<◌, ◌≤◌, ◌^◌, Bool, Some, length, slice_get, IsTrue, true, false};
ghost use Rattle.argot_links.specs.Table.{has};
ghost use Rattle.argot_plain.specs.Code.{arguments, param_of};
ghost use Rattle.argot_plain.specs.declared.instructions.Callee.{Callee as Callees};
ghost use Rattle.argot_points.specs.Advancing.{Advances};
ghost use Rattle.argot_points.specs.Meaning.{IsRow, IsRoot, NodeTo, LiveAt, IsParam, IsParamOf, IsHanded, IsOutside, HandHolds, Means, Aimed, IsCall};
ghost use Rattle.argot_points.specs.Solved.{Fits, IsSound, IsPart, Refers, HandClosed, room_of};

use crate::calls::{Calling, param_of};
use crate::leaves::{enter_leaves, hand_back_leaves};
use crate::moves::put;
use crate::system::{System, Tables};
use argot_facts::Node;
use argot_plain::{Callee, Kind};
use argot_points_rules::{Rule, leaves_of};
use argot_text::PathStep;

/// The function is live.
pub(crate) fn enliven(system: &System, tables: &mut Tables, g: u32) -> bool
    requires fits { Fits system.now }
    requires inside { g < length system.now.program.now.functions }
    requires rule { LiveAt system.now g }
    requires sound { IsSound system.now tables.old }
    ensures sound { IsSound system.now tables.new }
    ensures advances { Advances system.now tables.old tables.new }
    ensures closed { has tables.new.live 0 g ≡ true }
    ensures same { result ≡ false → tables.new ≡ tables.old }
    ensures room { IsTrue result → room_of tables.new < room_of tables.old }
{
    if tables.live.add(0, g) {
        tables
            .grown
            .put((system.nodes.len() + system.locations.len()) as u32 + g);
        return true;
    }
    false
}

/// The parameter of g refers, at the leaf of the path, to all that the node does.
fn enter_param(
    system: &System,
    tables: &mut Tables,
    g: u32,
    param: usize,
    path: &[PathStep],
    source: Node,
) -> bool
    requires fits { Fits system.now }
    requires inside { g < length system.now.program.now.functions }
    requires rule { (n m y : ℕ) → IsParamOf system.now g param path.now m → IsRow system.now n source → NodeTo system.now n y → NodeTo system.now m y }
    requires sound { IsSound system.now tables.old }
    ensures sound { IsSound system.now tables.new }
    ensures advances { Advances system.now tables.old tables.new }
    ensures closed { result ≡ false → (n m : ℕ) → IsParamOf system.now g param path.now m → IsRow system.now n source → IsPart tables.new.refers n m }
    ensures same { result ≡ false → tables.new ≡ tables.old }
    ensures room { IsTrue result → room_of tables.new < room_of tables.old }
{
    let function = system.program.function(g as usize);
    if param >= function.params as usize {
        return false;
    }
    let param = param as u32;
    enter_leaves(
        system,
        tables,
        function.entry,
        param,
        leaves_of(function, param),
        path,
        source,
    )
}

/// The handed value of this index enters g, at the leaf of the path.
pub(crate) fn enter(
    system: &System,
    tables: &mut Tables,
    place: u32,
    g: u32,
    takes: bool,
    index: u32,
    path: &[PathStep],
    source: Node,
) -> bool
    requires fits { Fits system.now }
    requires inside { g < length system.now.program.now.functions }
    requires rule { (n m y : ℕ) → IsParam system.now place g takes index path.now m → IsRow system.now n source → NodeTo system.now n y → NodeTo system.now m y }
    requires sound { IsSound system.now tables.old }
    ensures sound { IsSound system.now tables.new }
    ensures advances { Advances system.now tables.old tables.new }
    ensures closed { result ≡ false → (n m : ℕ) → IsParam system.now place g takes index path.now m → IsRow system.now n source → IsPart tables.new.refers n m }
    ensures same { result ≡ false → tables.new ≡ tables.old }
    ensures room { IsTrue result → room_of tables.new < room_of tables.old }
{
    match system.param(place, takes, index) {
        Some(param) => enter_param(system, tables, g, param, path, source),
        None => false,
    }
}

/// The node refers, at the leaf of the path, to all that g hands back with this index.
pub(crate) fn hand_back(
    system: &System,
    tables: &mut Tables,
    g: u32,
    index: u32,
    path: &[PathStep],
    to: Node,
) -> bool
    requires fits { Fits system.now }
    requires inside { g < length system.now.program.now.functions }
    requires rule { (n m y : ℕ) → IsHanded system.now g index path.now m → IsRow system.now n to → NodeTo system.now m y → NodeTo system.now n y }
    requires sound { IsSound system.now tables.old }
    ensures sound { IsSound system.now tables.new }
    ensures advances { Advances system.now tables.old tables.new }
    ensures closed { result ≡ false → (n m : ℕ) → IsHanded system.now g index path.now m → IsRow system.now n to → IsPart tables.new.refers m n }
    ensures same { result ≡ false → tables.new ≡ tables.old }
    ensures room { IsTrue result → room_of tables.new < room_of tables.old }
{
    let function = system.program.function(g as usize);
    match function.external {
        Some(_) => false,
        None => match system.handed(g, index) {
            Some(register) => hand_back_leaves(
                system,
                tables,
                function.leave,
                index,
                leaves_of(function, register),
                path,
                to,
            ),
            None => false,
        },
    }
}

/// The node refers to the objects of the site, if g is an external.
pub(crate) fn fresh(system: &System, tables: &mut Tables, g: u32, to: Node, site: u32) -> bool
    requires fits { Fits system.now }
    requires inside { g < length system.now.program.now.functions }
    requires rule { (n y : ℕ) → IsOutside system.now g → IsRow system.now n to → IsRoot system.now site y → NodeTo system.now n y }
    requires sound { IsSound system.now tables.old }
    ensures sound { IsSound system.now tables.new }
    ensures advances { Advances system.now tables.old tables.new }
    ensures closed { (n y : ℕ) → IsOutside system.now g → IsRow system.now n to → IsRoot system.now site y → has tables.new.refers n y ≡ true }
    ensures same { result ≡ false → tables.new ≡ tables.old }
    ensures room { IsTrue result → room_of tables.new < room_of tables.old }
{
    if system.program.function(g as usize).external.is_none() {
        return false;
    }
    put(system, tables, to, site)
}
