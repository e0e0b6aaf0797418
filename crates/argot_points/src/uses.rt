// Which rules look at which rows.
ghost use Rattle.std.specs.Prelude.{◌≡◌, ℕ, ◌+◌, ◌*◌, ◌<◌, ◌≤◌, length, slice_get, Some, true, false, IfOk};
ghost use Rattle.argot_points_rules.specs.declared.rules.Owned.{Owned as Owneds};
ghost use Rattle.argot_facts.specs.declared.nodes.Node.{Node as Nodes};
ghost use Rattle.argot_points.specs.Meaning.{IsRow};
ghost use Rattle.argot_points.specs.Settled.{is_moving, LooksAt, Reads, HasUses, IsUsed, AddsUses};
ghost use Rattle.argot_points.specs.Solved.{Fits, function_key, row_keys};

use crate::system::System;
use argot_facts::Node;
use argot_links::Chains;
use argot_points_rules::Rule;
use argot_text::Memory;
use std::alloc::Global;

/// Adds the rule to the list of the key.
fn note(uses: &mut Chains, key: u32, k: u32)
    requires key { key < length uses.old.lists }
    requires room { 0 < uses.old.spare }
    ensures adds { AddsUses uses.old.lists uses.new.lists k }
    ensures there { IsUsed uses.new.lists key k }
    ensures spare { uses.old.spare ≤ uses.new.spare + 1 }
{
    uses.push(key, k);
}

/// Adds the rule to the list of the node's row.
fn note_node(system: &System, uses: &mut Chains, node: Node, k: u32)
    requires fits { Fits system.now }
    requires heads { row_keys system.now ≤ length uses.old.lists }
    requires room { 0 < uses.old.spare }
    ensures adds { AddsUses uses.old.lists uses.new.lists k }
    ensures there { (r : ℕ) → IsRow system.now r node → IsUsed uses.new.lists r k }
    ensures spare { uses.old.spare ≤ uses.new.spare + 1 }
{
    match system.row(node) {
        Some(r) => note(uses, r, k),
        None => {}
    }
}

/// Adds the rule to the lists of the rows of both nodes.
fn note_both(system: &System, uses: &mut Chains, a: Node, b: Node, k: u32)
    requires fits { Fits system.now }
    requires heads { row_keys system.now ≤ length uses.old.lists }
    requires room { 2 ≤ uses.old.spare }
    ensures adds { AddsUses uses.old.lists uses.new.lists k }
    ensures first { (r : ℕ) → IsRow system.now r a → IsUsed uses.new.lists r k }
    ensures second { (r : ℕ) → IsRow system.now r b → IsUsed uses.new.lists r k }
    ensures spare { uses.old.spare ≤ uses.new.spare + 2 }
{
    note_node(system, uses, a, k);
    note_node(system, uses, b, k);
}

/// Adds the rule to the lists of the rows at which it looks.
fn note_rows(system: &System, uses: &mut Chains, rule: &Rule, k: u32)
    requires fits { Fits system.now }
    requires heads { row_keys system.now ≤ length uses.old.lists }
    requires room { 2 ≤ uses.old.spare }
    ensures adds { AddsUses uses.old.lists uses.new.lists k }
    ensures there { (a : Nodes) (r : ℕ) → LooksAt rule.now a → IsRow system.now r a → IsUsed uses.new.lists r k }
    ensures spare { uses.old.spare ≤ uses.new.spare + 2 }
{
    match rule {
        Rule::Copy { source, .. } => note_node(system, uses, *source, k),
        Rule::Shift { source, .. } => note_node(system, uses, *source, k),
        Rule::Keep { source, .. } => note_node(system, uses, *source, k),
        Rule::Store { at, source, .. } => note_both(system, uses, *at, *source, k),
        Rule::Aim { by, .. } => note_node(system, uses, *by, k),
        Rule::Enter { by, source, .. } => note_both(system, uses, *by, *source, k),
        Rule::Choose { by, .. } => note_node(system, uses, *by, k),
        Rule::Fresh { by, .. } => note_node(system, uses, *by, k),
        _ => {}
    }
}

/// Adds the rule of this number to the lists of all at which it looks.
fn note_rule(system: &System, uses: &mut Chains, k: u32)
    requires fits { Fits system.now }
    requires inside { k < length system.now.rules.items }
    requires heads { length uses.old.lists ≡ function_key system.now (length system.now.program.now.functions) }
    requires room { 3 ≤ uses.old.spare }
    ensures adds { AddsUses uses.old.lists uses.new.lists k }
    ensures there { (o : Owneds) (q : ℕ) → slice_get system.now.rules.items k ≡ Some o → Reads system.now o q → q < length uses.new.lists → IsUsed uses.new.lists q k }
    ensures spare { uses.old.spare ≤ uses.new.spare + 3 }
{
    let owned = system.rule(k as usize);
    note_rows(system, uses, &owned.rule, k);
    if (owned.function as usize) < system.program.function_count() {
        note(
            uses,
            (system.nodes.len() + system.locations.len()) as u32 + owned.function,
            k,
        );
    }
}

/// The lists of all rows and functions, each with the rules that look at it.
pub(crate) fn uses_of(alloc: Global, system: &System) -> Result<Chains, Memory>
    requires fits { Fits system.now }
    ensures { IfOk result (λ c. HasUses system.now c.lists) }
{
    let rules = system.rules.len();
    if rules > 1073741824 {
        return Err(Memory);
    }
    let rows = system.nodes.len() + system.locations.len();
    let mut uses = Chains::new(alloc, (rows + system.program.function_count()) as u32)?;
    uses.reserve(rules as u32 * 3)?;
    for k in 0..rules {
        note_rule(system, &mut uses, k as u32);
    }
    Ok(uses)
}
