// The solver that looks at a rule again only when a row grew that it looks at. Rules whose rows only the tables name are
// followed in rounds, each when nothing else waits.
ghost use Rattle.std.specs.Prelude.{◌≡◌, ℕ, ◌<◌, ◌≤◌, length, slice_get, Some, IsTrue, true, false};
ghost use Rattle.argot_links.specs.Members.{has as waits};
ghost use Rattle.argot_points_rules.specs.declared.rules.Owned.{Owned as Owneds};
ghost use Rattle.argot_points.specs.Advancing.{Advances};
ghost use Rattle.argot_points.specs.Meaning.{RulesHold};
ghost use Rattle.argot_points.specs.Settled.{is_moving, AllSettled, AllSettledBut, HasUses};
ghost use Rattle.argot_points.specs.Solved.{Fits, HasSize, IsSound, IsDone, AllDone, function_key, room_of};

use crate::passes::{apply, begin};
use crate::system::{System, Tables};
use argot_links::Chains;
use argot_points_rules::Rule;

/// Whether the rule looks at rows that only the tables name.
pub(crate) fn is_moving(rule: &Rule) -> bool
    ensures { result ≡ is_moving rule.now }
{
    match rule {
        Rule::Load { .. } => true,
        Rule::Return { .. } => true,
        _ => false,
    }
}

/// Follows each rule that looks at this row or function. Whether that added something.
fn visit(system: &System, uses: &Chains, tables: &mut Tables, key: u32) -> bool
    requires fits { Fits system.now }
    requires hold { RulesHold system.now }
    requires uses { HasUses system.now uses.now.lists }
    requires key { key < function_key system.now (length system.now.program.now.functions) }
    requires sound { IsSound system.now tables.old }
    requires settled { AllSettledBut system.now tables.old key }
    ensures sound { IsSound system.now tables.new }
    ensures settled { AllSettledBut system.now tables.new key }
    ensures done { result ≡ false → AllSettled system.now tables.new }
    ensures same { result ≡ false → tables.new ≡ tables.old }
    ensures room { IsTrue result → room_of tables.new < room_of tables.old }
{
    let mut changed = false;
    for k in uses.walk(key) {
        if apply(system, tables, k as usize) {
            changed = true;
        }
    }
    changed
}

/// Looks at what waits, until nothing does.
fn drain(system: &System, uses: &Chains, tables: &mut Tables)
    requires fits { Fits system.now }
    requires hold { RulesHold system.now }
    requires uses { HasUses system.now uses.now.lists }
    requires sound { IsSound system.now tables.old }
    requires settled { AllSettled system.now tables.old }
    ensures sound { IsSound system.now tables.new }
    ensures settled { AllSettled system.now tables.new }
    ensures empty { (k : ℕ) → waits tables.new.grown.items k ≡ false }
    ensures room { room_of tables.new ≤ room_of tables.old }
{
    while let Some(key) = tables.grown.take() {
        if visit(system, uses, tables, key) {
            tables.grown.put(key);
        }
    }
}

/// Follows the rule of this number, if it is a moving one.
fn move_on(system: &System, tables: &mut Tables, k: usize) -> bool
    requires fits { Fits system.now }
    requires inside { k < length system.now.rules.items }
    requires hold { RulesHold system.now }
    requires sound { IsSound system.now tables.old }
    ensures sound { IsSound system.now tables.new }
    ensures advances { Advances system.now tables.old tables.new }
    ensures closed { result ≡ false → (o : Owneds) → slice_get system.now.rules.items k ≡ Some o → is_moving o.rule ≡ true → IsDone system.now tables.new o }
    ensures same { result ≡ false → tables.new ≡ tables.old }
    ensures room { IsTrue result → room_of tables.new < room_of tables.old }
{
    if is_moving(&system.rule(k).rule) {
        return apply(system, tables, k);
    }
    false
}

/// Follows each moving rule. Whether that added something.
fn move_all(system: &System, tables: &mut Tables) -> bool
    requires fits { Fits system.now }
    requires hold { RulesHold system.now }
    requires sound { IsSound system.now tables.old }
    requires settled { AllSettled system.now tables.old }
    ensures sound { IsSound system.now tables.new }
    ensures settled { AllSettled system.now tables.new }
    ensures closed { result ≡ false → (k : ℕ) (o : Owneds) → slice_get system.now.rules.items k ≡ Some o → is_moving o.rule ≡ true → IsDone system.now tables.new o }
    ensures same { result ≡ false → tables.new ≡ tables.old }
    ensures room { IsTrue result → room_of tables.new < room_of tables.old }
{
    let mut changed = false;
    for k in 0..system.rules.len() {
        if move_on(system, tables, k) {
            changed = true;
        }
    }
    changed
}

/// Looks at what waits, and then follows each moving rule. Whether the latter added something.
fn round(system: &System, uses: &Chains, tables: &mut Tables) -> bool
    requires fits { Fits system.now }
    requires hold { RulesHold system.now }
    requires uses { HasUses system.now uses.now.lists }
    requires sound { IsSound system.now tables.old }
    requires settled { AllSettled system.now tables.old }
    ensures sound { IsSound system.now tables.new }
    ensures settled { AllSettled system.now tables.new }
    ensures done { result ≡ false → AllDone system.now tables.new }
    ensures room { IsTrue result → room_of tables.new < room_of tables.old }
{
    drain(system, uses, tables);
    move_all(system, tables)
}

/// Nothing but that the entry is live, whose rules wait.
fn start(system: &System, tables: &mut Tables)
    requires fits { Fits system.now }
    requires size { HasSize system.now tables.old }
    ensures sound { IsSound system.now tables.new }
    ensures settled { AllSettled system.now tables.new }
{
    begin(system, tables);
    tables
        .grown
        .put((system.nodes.len() + system.locations.len()) as u32);
}

/// Follows rules from nothing until none adds anything.
pub(crate) fn settle(system: &System, uses: &Chains, tables: &mut Tables)
    requires fits { Fits system.now }
    requires hold { RulesHold system.now }
    requires uses { HasUses system.now uses.now.lists }
    requires size { HasSize system.now tables.old }
    ensures sound { IsSound system.now tables.new }
    ensures done { AllDone system.now tables.new }
{
    start(system, tables);
    while round(system, uses, tables) {}
}
