// Flags of numbers.
ghost use Rattle.std.specs.Prelude.{◌≡◌, ◌≤◌, ◌<◌, ℕ, IfOk, length, true};
ghost use Rattle.argot_plain.specs.Counts.{is_named};
ghost use Rattle.argot_plain.specs.Lists.{In};
ghost use Rattle.argot_facts.specs.Marked.{IsSet};
ghost use Rattle.argot_roles.specs.Marking.{Marks, AreMarked};

use argot_facts::mark;
use argot_text::{Memory, Text};
use std::alloc::Global;

/// Sets the flag of a number, where it has one.
pub(crate) fn set(flags: &mut Vec<bool>, n: u32)
    ensures { Marks (λ m. m ≡ n) flags.old.items flags.new.items }
{
    if (n as usize) < flags.len() {
        mark(flags, n as usize);
    }
}

/// Sets the flags of these numbers.
fn set_all(flags: &mut Vec<bool>, numbers: &[u32])
    ensures { Marks (λ m. In m numbers.now) flags.old.items flags.new.items }
{
    for k in 0..numbers.len() {
        set(flags, numbers[k]);
    }
}

/// Sets the flags from one number on, below another.
pub(crate) fn set_range(flags: &mut Vec<bool>, low: u32, end: u32)
    requires { low ≤ end }
    ensures { Marks (λ m. (low ≤ m) × (m < end)) flags.old.items flags.new.items }
{
    for n in low..end {
        set(flags, n);
    }
}

/// Flags of which none is set.
pub(crate) fn no_flags(alloc: Global, count: usize) -> Result<Vec<bool>, Memory>
    ensures count { IfOk result (λ v. length v.items ≡ count) }
    ensures none { IfOk result (λ v. (m : ℕ) → IsSet v.items m → ⊥) }
{
    let flags = vec![in alloc; false; count]?;
    Ok(flags)
}

/// For each number below `count` whether it is one of these.
pub fn listed(alloc: Global, numbers: &[u32], count: usize) -> Result<Vec<bool>, Memory>
    ensures { IfOk result (λ v. AreMarked (λ m. In m numbers.now) count v.items) }
{
    let mut flags = no_flags(alloc, count)?;
    set_all(&mut flags, numbers);
    Ok(flags)
}

/// Sets the flags of these places.
fn set_places(flags: &mut Vec<bool>, places: &[(u32, Text)])
    ensures { Marks (λ m. is_named m places.now ≡ true) flags.old.items flags.new.items }
{
    for k in 0..places.len() {
        set(flags, places[k].0);
    }
}

/// For each place below `count` whether it is one of these.
pub fn named(alloc: Global, places: &[(u32, Text)], count: usize) -> Result<Vec<bool>, Memory>
    ensures { IfOk result (λ v. AreMarked (λ m. is_named m places.now ≡ true) count v.items) }
{
    let mut flags = no_flags(alloc, count)?;
    set_places(&mut flags, places);
    Ok(flags)
}
