// The rules of calls, target by target.
ghost use Rattle.std.specs.Prelude.{◌≡◌, ℕ, ◌<◌, Bool, List, length, IsTrue, true, false};
ghost use Rattle.argot_links.specs.Table.{has};
ghost use Rattle.argot_points.specs.Advancing.{Advances};
ghost use Rattle.argot_points.specs.Meaning.{IsRow, NodeTo, HandHolds, Means, Aimed, IsCall, HasCallee};
ghost use Rattle.argot_plain.specs.declared.instructions.Callee.{Callee as Callees};
ghost use Rattle.argot_points.specs.Solved.{Fits, IsSound, Refers, HandClosed, room_of};

use crate::hands::{enliven, enter, fresh, hand_back};
use crate::system::{System, Tables};
use argot_facts::Node;
use argot_plain::Callee;
use argot_points_rules::Rule;

/// The rule at the target g, which takes the reference or doesn't.
fn hand(system: &System, tables: &mut Tables, rule: &Rule, g: u32, takes: bool) -> bool
    requires fits { Fits system.now }
    requires inside { g < length system.now.program.now.functions }
    requires rule { HandHolds system.now rule.now g takes }
    requires sound { IsSound system.now tables.old }
    ensures sound { IsSound system.now tables.new }
    ensures advances { Advances system.now tables.old tables.new }
    ensures closed { result ≡ false → HandClosed system.now tables.new rule.now g takes }
    ensures same { result ≡ false → tables.new ≡ tables.old }
    ensures room { IsTrue result → room_of tables.new < room_of tables.old }
{
    match rule {
        Rule::Aim { .. } => enliven(system, tables, g),
        Rule::Enter {
            place,
            index,
            path,
            source,
            ..
        } => enter(
            system,
            tables,
            *place,
            g,
            takes,
            *index,
            path.as_slice(),
            *source,
        ),
        Rule::Return {
            index,
            path,
            to,
            ..
        } => hand_back(system, tables, g, *index, path.as_slice(), *to),
        Rule::Fresh { to, site, .. } => fresh(system, tables, g, *to, *site),
        _ => false,
    }
}

/// The rule at what the callee means at the location y, if the row has y.
fn hand_at(
    system: &System,
    tables: &mut Tables,
    rule: &Rule,
    callee: &Callee,
    row: u32,
    y: u32,
) -> bool
    requires fits { Fits system.now }
    requires row { row < length system.now.nodes.items }
    requires column { y < length system.now.locations.items }
    requires rule { NodeTo system.now row y → (g : ℕ) (takes : Bool) → Means system.now callee.now y g takes → HandHolds system.now rule.now g takes }
    requires sound { IsSound system.now tables.old }
    ensures sound { IsSound system.now tables.new }
    ensures advances { Advances system.now tables.old tables.new }
    ensures closed { result ≡ false → has tables.new.refers row y ≡ true → (g : ℕ) (takes : Bool) → Means system.now callee.now y g takes → HandClosed system.now tables.new rule.now g takes }
    ensures same { result ≡ false → tables.new ≡ tables.old }
    ensures room { IsTrue result → room_of tables.new < room_of tables.old }
{
    if !tables.refers.has(row, y) {
        return false;
    }
    match system.means(callee, y) {
        Some(target) => hand(system, tables, rule, target.0, target.1),
        None => false,
    }
}

/// The rule at all that the callee means by what the row refers to.
fn hand_row(system: &System, tables: &mut Tables, rule: &Rule, callee: &Callee, row: u32) -> bool
    requires fits { Fits system.now }
    requires row { row < length system.now.nodes.items }
    requires rule { (y : ℕ) → NodeTo system.now row y → (g : ℕ) (takes : Bool) → Means system.now callee.now y g takes → HandHolds system.now rule.now g takes }
    requires sound { IsSound system.now tables.old }
    ensures sound { IsSound system.now tables.new }
    ensures advances { Advances system.now tables.old tables.new }
    ensures closed { result ≡ false → (y : ℕ) → has tables.new.refers row y ≡ true → (g : ℕ) (takes : Bool) → Means system.now callee.now y g takes → HandClosed system.now tables.new rule.now g takes }
    ensures same { result ≡ false → tables.new ≡ tables.old }
    ensures room { IsTrue result → room_of tables.new < room_of tables.old }
{
    let mut changed = false;
    let mut from = 0;
    while let Some(y) = tables.refers.next_from(row, from) {
        if hand_at(system, tables, rule, callee, row, y) {
            changed = true;
        }
        from = y + 1;
    }
    changed
}

/// The rule at all targets of a call that goes by a reference.
fn hand_all(system: &System, tables: &mut Tables, rule: &Rule, callee: &Callee, by: Node) -> bool
    requires fits { Fits system.now }
    requires rule { (row y : ℕ) → IsRow system.now row by → NodeTo system.now row y → (g : ℕ) (takes : Bool) → Means system.now callee.now y g takes → HandHolds system.now rule.now g takes }
    requires sound { IsSound system.now tables.old }
    ensures sound { IsSound system.now tables.new }
    ensures advances { Advances system.now tables.old tables.new }
    ensures closed { result ≡ false → (row y : ℕ) → IsRow system.now row by → has tables.new.refers row y ≡ true → (g : ℕ) (takes : Bool) → Means system.now callee.now y g takes → HandClosed system.now tables.new rule.now g takes }
    ensures same { result ≡ false → tables.new ≡ tables.old }
    ensures room { IsTrue result → room_of tables.new < room_of tables.old }
{
    match system.row(by) {
        Some(row) => hand_row(system, tables, rule, callee, row),
        None => false,
    }
}

/// The rule at all targets of the place, whose callee this is.
fn call_at(
    system: &System,
    tables: &mut Tables,
    rule: &Rule,
    callee: &Callee,
    place: u32,
    by: Node,
) -> bool
    requires fits { Fits system.now }
    requires there { HasCallee system.now.program.now place callee.now }
    requires alone { (other : Callees) (args : List ℕ) (n : ℕ) → IsCall system.now.program.now place other args n → other ≡ callee.now }
    requires rule { (g : ℕ) (takes : Bool) → Aimed system.now (NodeTo system.now) place by g takes → HandHolds system.now rule.now g takes }
    requires sound { IsSound system.now tables.old }
    ensures sound { IsSound system.now tables.new }
    ensures advances { Advances system.now tables.old tables.new }
    ensures closed { result ≡ false → (g : ℕ) (takes : Bool) → Aimed system.now (Refers tables.new) place by g takes → HandClosed system.now tables.new rule.now g takes }
    ensures same { result ≡ false → tables.new ≡ tables.old }
    ensures room { IsTrue result → room_of tables.new < room_of tables.old }
{
    match callee {
        Callee::Static(g) => hand(system, tables, rule, *g, false),
        _ => hand_all(system, tables, rule, callee, by),
    }
}

/// The rule at all targets of the place.
pub(crate) fn call(system: &System, tables: &mut Tables, rule: &Rule, place: u32, by: Node) -> bool
    requires fits { Fits system.now }
    requires rule { (g : ℕ) (takes : Bool) → Aimed system.now (NodeTo system.now) place by g takes → HandHolds system.now rule.now g takes }
    requires sound { IsSound system.now tables.old }
    ensures sound { IsSound system.now tables.new }
    ensures advances { Advances system.now tables.old tables.new }
    ensures closed { result ≡ false → (g : ℕ) (takes : Bool) → Aimed system.now (Refers tables.new) place by g takes → HandClosed system.now tables.new rule.now g takes }
    ensures same { result ≡ false → tables.new ≡ tables.old }
    ensures room { IsTrue result → room_of tables.new < room_of tables.old }
{
    match system.calling(place) {
        Some(calling) => call_at(system, tables, rule, calling.callee, place, by),
        None => false,
    }
}
