// The facts found so far.
ghost use Rattle.std.specs.Prelude.{◌≡◌, ℕ, ◌≤◌, ◌<◌, length, slice_get, Some, OnOk, IfErr, IsTrue, false};
ghost use Rattle.argot_facts.specs.Summed.{same};
ghost use Rattle.argot_summary.specs.Finding.{HasNone, IsOther, Stands, IsThere, IsWell, IsLow, Adds, IsMany};

use crate::buckets::slot;
use crate::faults::SummaryFault;
use argot_facts::Same;
use argot_links::Chains;

/// Facts as they are found, and lists by which one is looked up.
#[derive(Drop)]
pub(crate) struct Found {
    pub facts: Vec<Same>,
    pub members: Chains,
    pub heads: u32,
}

/// Whether the fact of this number is that from `from` to `to`.
fn is_at(found: &Found, i: u32, from: u32, to: u32) -> bool
    requires { i < length found.now.facts.items }
    ensures there { IsTrue result → Stands found.now.facts.items from to }
    ensures other { result ≡ false → IsOther found.now.facts.items i from to }
{
    let fact = found.facts[i as usize];
    fact.from == from && fact.to == to
}

/// Whether there is such a fact.
fn has(found: &Found, from: u32, to: u32) -> bool
    requires { IsWell found.now }
    ensures there { IsTrue result → Stands found.now.facts.items from to }
    ensures fresh { result ≡ false → HasNone found.now.facts.items from to }
{
    for i in found.members.walk(slot(from, to, found.heads)) {
        if is_at(found, i, from, to) {
            return true;
        }
    }
    false
}

/// Adds a fact, with the number that it gets.
fn push(found: &mut Found, from: u32, to: u32, rank: u32) -> Result<(), SummaryFault>
    requires well { IsWell found.old }
    requires few { length found.old.facts.items ≤ 16777216 }
    requires fresh { HasNone found.old.facts.items from to }
    ensures well { IsWell found.new }
    ensures adds { Adds found.old.facts.items found.new.facts.items (same from to rank) }
    ensures there { OnOk result (IsThere found.new.facts.items from to rank) }
    ensures few { OnOk result (length found.new.facts.items ≤ 16777216) }
    ensures many { IfErr result (IsMany found.new.facts.items) }
{
    let Ok(_) = found.members.reserve(1) else {
        return Err(SummaryFault::Memory);
    };
    let at = found.facts.len();
    let Ok(_) = found.facts.push(Same { from, to, rank }) else {
        return Err(SummaryFault::Memory);
    };
    found.members.push(slot(from, to, found.heads), at as u32);
    if at >= 16777216 {
        return Err(SummaryFault::Pairs);
    }
    Ok(())
}

/// Adds a fact, if it isn't there.
pub(crate) fn add(found: &mut Found, from: u32, to: u32, rank: u32) -> Result<(), SummaryFault>
    requires well { IsWell found.old }
    requires low { IsLow found.old.facts.items rank }
    requires few { length found.old.facts.items ≤ 16777216 }
    ensures well { IsWell found.new }
    ensures adds { Adds found.old.facts.items found.new.facts.items (same from to rank) }
    ensures there { OnOk result (IsThere found.new.facts.items from to rank) }
    ensures few { OnOk result (length found.new.facts.items ≤ 16777216) }
    ensures many { IfErr result (IsMany found.new.facts.items) }
{
    if has(found, from, to) {
        return Ok(());
    }
    push(found, from, to, rank)
}
