// Cutting a function into blocks: runs of places that are entered only at the first.
ghost use Rattle.std.specs.Prelude.{◌≡◌, ℕ, ◌+◌, ◌-◌, ◌<◌, ◌≤◌, length, slice_index, true, OnOk, IfOk};
ghost use Rattle.argot_plain.specs.WellFormed.{WellFormed};
ghost use Rattle.argot_ssa.specs.Edges.{IsSet, holds};
ghost use Rattle.argot_ssa.specs.Places.{size, IsOneOf, Cuts, AreHeads, IsCut};

use crate::places::{falls, push_next};
use argot_links::Rows;
use argot_plain::{Function, Program};
use argot_text::Memory;
use std::alloc::Global;

/// Marks these places, counted from the entry.
fn mark_all(targets: &[u32], entry: u32, begins: &mut Rows)
    requires low { (j : ℕ) → j < length targets.now → entry ≤ slice_index targets.now j }
    requires high { (j : ℕ) → j < length targets.now → slice_index targets.now j - entry < begins.old.cols }
    requires set { IsSet begins.old.cols begins.old }
    ensures set { IsSet begins.old.cols begins.new }
    ensures kept { (a : ℕ) → holds begins.old a ≡ true → holds begins.new a ≡ true }
    ensures marked { (j : ℕ) → j < length targets.now → holds begins.new (slice_index targets.now j - entry) ≡ true }
{
    for target in targets {
        begins.add(0, *target - entry);
    }
}

/// Marks where blocks begin on account of the instruction at the place number k: where it goes on, and behind it.
fn mark_at(
    program: &Program,
    function: &Function,
    k: u32,
    targets: &mut Vec<u32>,
    begins: &mut Rows,
) -> Result<(), Memory>
    requires well { WellFormed program.now }
    requires function { IsOneOf program.now function.now }
    requires place { k < size function.now }
    requires set { IsSet (size function.now) begins.old }
    ensures set { IsSet (size function.now) begins.new }
    ensures kept { (a : ℕ) → holds begins.old a ≡ true → holds begins.new a ≡ true }
    ensures cuts { OnOk result (Cuts program.now function.now (holds begins.new) k) }
{
    let place = function.entry + k;
    let kind = program.kind(place as usize);
    if falls(kind) {
        return Ok(());
    }
    targets.clear();
    push_next(kind, place, targets)?;
    mark_all(targets.as_slice(), function.entry, begins);
    if place < function.leave {
        begins.add(0, k + 1);
    }
    Ok(())
}

/// How many places the function has.
pub fn count_places(program: &Program, function: &Function) -> u32
    requires well { WellFormed program.now }
    requires function { IsOneOf program.now function.now }
    ensures count { result ≡ size function.now }
    ensures some { 0 < result }
    ensures limit { result ≤ 1048576 }
{
    let _ = program.len();
    function.leave - function.entry + 1
}

/// The places at which blocks begin.
fn find_begins(alloc: Global, program: &Program, function: &Function) -> Result<Rows, Memory>
    requires well { WellFormed program.now }
    requires function { IsOneOf program.now function.now }
    ensures set { IfOk result (λ t. IsSet (size function.now) t) }
    ensures entry { IfOk result (λ t. holds t 0 ≡ true) }
    ensures cuts { IfOk result (λ t. (k : ℕ) → k < size function.now → Cuts program.now function.now (holds t) k) }
{
    let count = count_places(program, function);
    let mut begins = Rows::new(alloc, 1, count)?;
    begins.add(0, 0);
    let mut targets = Vec::new(alloc);
    for k in 0..count {
        mark_at(program, function, k, &mut targets, &mut begins)?;
    }
    Ok(begins)
}

/// For each place the last marked one up to it.
fn heads_of(alloc: Global, begins: &Rows, count: u32) -> Result<Vec<u32>, Memory>
    requires set { IsSet count begins.now }
    ensures { IfOk result (λ v. AreHeads (holds begins.now) count v.items) }
{
    let mut heads = Vec::new(alloc);
    let mut head = 0;
    for k in 0..count {
        if begins.has(0, k) {
            head = k;
        }
        heads.push(head)?;
    }
    Ok(heads)
}

/// For each place of the function, counted from its entry, the first one of its block.
pub fn cut(alloc: Global, program: &Program, function: &Function) -> Result<Vec<u32>, Memory>
    requires well { WellFormed program.now }
    requires function { IsOneOf program.now function.now }
    ensures { IfOk result (λ v. IsCut program.now function.now v.items) }
{
    let begins = find_begins(alloc, program, function)?;
    let count = count_places(program, function);
    let heads = heads_of(alloc, &begins, count)?;
    Ok(heads)
}
