// The plain solver: every rule once more, from the first to the last and back, until none adds anything. What a value is
// copied from stands mostly before it, what a call hands back mostly behind it.
ghost use Rattle.std.specs.Prelude.{◌≡◌, ℕ, ◌<◌, Some, length, slice_get, IsTrue, true, false};
ghost use Rattle.argot_links.specs.Members.{has as waits};
ghost use Rattle.argot_links.specs.Table.{has};
ghost use Rattle.argot_points_rules.specs.declared.rules.Owned.{Owned as Owneds};
ghost use Rattle.argot_points.specs.Advancing.{Advances};
ghost use Rattle.argot_points.specs.Meaning.{RuleHolds, RulesHold};
ghost use Rattle.argot_points.specs.Solved.{Fits, HasSize, IsSound, ClosedUnder, IsDone, AllDone, room_of};

use crate::choosing::choose;
use crate::moves::{copy, keep, load, put, shift, store};
use crate::system::{System, Tables};
use crate::targets::call;
use argot_links::Queue;
use argot_points_rules::{Owned, Rule};

/// Follows a rule of a live function. Whether that added something.
pub(crate) fn follow(system: &System, tables: &mut Tables, rule: &Rule) -> bool
    requires fits { Fits system.now }
    requires holds { RuleHolds system.now rule.now }
    requires sound { IsSound system.now tables.old }
    ensures sound { IsSound system.now tables.new }
    ensures advances { Advances system.now tables.old tables.new }
    ensures closed { result ≡ false → ClosedUnder system.now tables.new rule.now }
    ensures same { result ≡ false → tables.new ≡ tables.old }
    ensures room { IsTrue result → room_of tables.new < room_of tables.old }
{
    match rule {
        Rule::Put { to, site } => put(system, tables, *to, *site),
        Rule::Copy { to, source } => copy(system, tables, *to, *source),
        Rule::Shift { to, source, path } => shift(system, tables, *to, *source, path.as_slice()),
        Rule::Keep { to, source, target } => keep(system, tables, *to, *source, *target),
        Rule::Load { to, at, path } => load(system, tables, *to, *at, path.as_slice()),
        Rule::Store { at, path, source } => store(system, tables, *at, path.as_slice(), *source),
        Rule::Aim { place, by } => call(system, tables, rule, *place, *by),
        Rule::Enter { place, by, .. } => call(system, tables, rule, *place, *by),
        Rule::Choose { place, by, index } => choose(system, tables, *place, *by, *index),
        Rule::Return { place, by, .. } => call(system, tables, rule, *place, *by),
        Rule::Fresh { place, by, .. } => call(system, tables, rule, *place, *by),
    }
}

/// Follows the rule of this number, if its function is live. Whether that added something.
pub(crate) fn apply(system: &System, tables: &mut Tables, k: usize) -> bool
    requires fits { Fits system.now }
    requires inside { k < length system.now.rules.items }
    requires hold { RulesHold system.now }
    requires sound { IsSound system.now tables.old }
    ensures sound { IsSound system.now tables.new }
    ensures advances { Advances system.now tables.old tables.new }
    ensures closed { result ≡ false → (o : Owneds) → slice_get system.now.rules.items k ≡ Some o → IsDone system.now tables.new o }
    ensures same { result ≡ false → tables.new ≡ tables.old }
    ensures room { IsTrue result → room_of tables.new < room_of tables.old }
{
    let owned = system.rule(k);
    if owned.function as usize >= system.program.function_count() {
        return false;
    }
    if !tables.live.has(0, owned.function) {
        return false;
    }
    follow(system, tables, &owned.rule)
}

/// Follows each rule once. Whether that added something.
fn pass(system: &System, tables: &mut Tables) -> bool
    requires fits { Fits system.now }
    requires hold { RulesHold system.now }
    requires sound { IsSound system.now tables.old }
    ensures sound { IsSound system.now tables.new }
    ensures advances { Advances system.now tables.old tables.new }
    ensures done { result ≡ false → AllDone system.now tables.new }
    ensures room { IsTrue result → room_of tables.new < room_of tables.old }
{
    let mut changed = false;
    for k in 0..system.rules.len() {
        if apply(system, tables, k) {
            changed = true;
        }
    }
    changed
}

/// Follows each rule once, the last one first. Whether that added something.
fn pass_back(system: &System, tables: &mut Tables) -> bool
    requires fits { Fits system.now }
    requires hold { RulesHold system.now }
    requires sound { IsSound system.now tables.old }
    ensures sound { IsSound system.now tables.new }
    ensures advances { Advances system.now tables.old tables.new }
    ensures done { result ≡ false → AllDone system.now tables.new }
    ensures room { IsTrue result → room_of tables.new < room_of tables.old }
{
    let mut changed = false;
    let mut k = system.rules.len();
    while k > 0 {
        k -= 1;
        if apply(system, tables, k) {
            changed = true;
        }
    }
    changed
}

/// Nothing waits.
fn forget(grown: &mut Queue)
    ensures size { grown.new.size ≡ grown.old.size }
    ensures none { (k : ℕ) → waits grown.new.items k ≡ false }
{
    while let Some(_) = grown.take() {}
}

/// Nothing but that the entry is live.
pub(crate) fn begin(system: &System, tables: &mut Tables)
    requires fits { Fits system.now }
    requires size { HasSize system.now tables.old }
    ensures sound { IsSound system.now tables.new }
    ensures empty { (r y : ℕ) → has tables.new.refers r y ≡ false }
    ensures entry { (g : ℕ) → has tables.new.live 0 g ≡ true → g ≡ 0 }
    ensures none { (k : ℕ) → waits tables.new.grown.items k ≡ false }
{
    tables.refers.clear();
    tables.live.clear();
    forget(&mut tables.grown);
    tables.live.add(0, 0);
}

/// Follows rules from nothing until none adds anything.
pub(crate) fn saturate(system: &System, tables: &mut Tables)
    requires fits { Fits system.now }
    requires hold { RulesHold system.now }
    requires size { HasSize system.now tables.old }
    ensures sound { IsSound system.now tables.new }
    ensures done { AllDone system.now tables.new }
{
    begin(system, tables);
    while pass(system, tables) && pass_back(system, tables) {}
}
