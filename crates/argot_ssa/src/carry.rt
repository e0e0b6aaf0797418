// The values of one register. Blocks that need its value on entry have a phi value for it, found by going backward from
// those that read it; a definition reaches a phi value exactly where it is carried there forward, through blocks that need it.
ghost use Rattle.std.specs.Prelude.{◌≡◌, ℕ, ◌+◌, ◌<◌, ◌⊎◌, ◌^◌, [], length, slice_index, true, false, OnOk};
ghost use Rattle.argot_links.specs.Members.{has};
ghost use Rattle.argot_plain.specs.Lists.{In};
ghost use Rattle.argot_ssa.specs.Edges.{leads, IsSet, holds, Spreads};
ghost use Rattle.argot_plain.specs.WellFormed.{WellFormed};
ghost use Rattle.argot_ssa.specs.Places.{size, IsOneOf, defines_at, IsExposed, IsCut, IsNet};
ghost use Rattle.argot_ssa.specs.Paths.{IsFound, AreOuts, AreAsks};
ghost use Rattle.argot_ssa.specs.Working.{IsWork, Supplies, IsCarried};

use crate::flood::{expand, flood};
use crate::net::Net;
use crate::work::{Work, mark_blocks};
use argot_links::{Chains, Queue, Rows};
use argot_plain::{Function, Program};
use argot_text::Memory;

/// Marks the blocks from which an edge leads to the block of a place that asks for the register.
fn seed(
    back: &Chains,
    all: &Rows,
    needed: &mut Rows,
    queue: &mut Queue,
    asks: &Chains,
    heads: &[u32],
    r: u32,
)
    requires count { length back.now.lists ≡ needed.old.cols }
    requires below { (a b : ℕ) → leads back.now.lists a b ≡ true → b < needed.old.cols }
    requires register { r < length asks.now.lists }
    requires range { (k : ℕ) → leads asks.now.lists r k ≡ true → k < length heads.now }
    requires heads { (k : ℕ) → k < length heads.now → slice_index heads.now k < needed.old.cols }
    requires all { IsSet needed.old.cols all.now }
    requires needed { IsSet needed.old.cols needed.old }
    requires queue { queue.old.size ≡ needed.old.cols }
    requires waits { (a : ℕ) → holds needed.old a ≡ true → has queue.old.items a ≡ true }
    requires marked { (a : ℕ) → has queue.old.items a ≡ true → holds needed.old a ≡ true }
    ensures needed { IsSet needed.old.cols needed.new }
    ensures queue { queue.new.size ≡ needed.old.cols }
    ensures waits { (a : ℕ) → holds needed.new a ≡ true → has queue.new.items a ≡ true }
    ensures marked { (a : ℕ) → has queue.new.items a ≡ true → holds needed.new a ≡ true }
    ensures there { (k b : ℕ) → leads asks.now.lists r k ≡ true → leads back.now.lists (slice_index heads.now k) b ≡ true → holds all.now b ≡ true → holds needed.new b ≡ true }
{
    for k in asks.walk(r) {
        expand(back, all, needed, queue, heads[k as usize]);
    }
}

/// Finds the blocks that need the value: those with a place that asks for it, and those at the end of which it is needed.
fn find_needed(back: &Chains, work: &mut Work, asks: &Chains, heads: &[u32], r: u32)
    requires work { IsWork (length heads.now) work.old }
    requires count { length back.now.lists ≡ length heads.now }
    requires below { (a b : ℕ) → leads back.now.lists a b ≡ true → b < length heads.now }
    requires register { r < length asks.now.lists }
    requires range { (k : ℕ) → leads asks.now.lists r k ≡ true → k < length heads.now }
    requires heads { (k : ℕ) → k < length heads.now → slice_index heads.now k < length heads.now }
    ensures work { IsWork (length heads.now) work.new }
    ensures stops { work.new.stops ≡ work.old.stops }
    ensures asked { (k : ℕ) → leads asks.now.lists r k ≡ true → holds work.new.needed (slice_index heads.now k) ≡ true }
    ensures before { (k b : ℕ) → leads asks.now.lists r k ≡ true → leads back.now.lists (slice_index heads.now k) b ≡ true → holds work.new.needed b ≡ true }
    ensures closed { (a b : ℕ) → holds work.new.needed a ≡ true → holds work.new.stops a ≡ false → leads back.now.lists a b ≡ true → holds work.new.needed b ≡ true }
{
    work.needed.clear();
    seed(
        back,
        &work.all,
        &mut work.needed,
        &mut work.queue,
        asks,
        heads,
        r,
    );
    flood(
        back,
        &work.stops,
        &work.all,
        &mut work.needed,
        &mut work.queue,
    );
    mark_blocks(asks, heads, r, &mut work.needed);
}

/// Carries a definition from the end of its block on, through the blocks that need the value.
fn follow(onward: &Chains, work: &mut Work, block: u32)
    requires work { IsWork (length onward.now.lists) work.old }
    requires below { (a b : ℕ) → leads onward.now.lists a b ≡ true → b < length onward.now.lists }
    requires block { block < length onward.now.lists }
    ensures work { IsWork (length onward.now.lists) work.new }
    ensures stops { work.new.stops ≡ work.old.stops }
    ensures needed { work.new.needed ≡ work.old.needed }
    ensures first { (b : ℕ) → leads onward.now.lists block b ≡ true → holds work.old.needed b ≡ true → holds work.new.seen b ≡ true }
    ensures closed { (a b : ℕ) → holds work.new.seen a ≡ true → holds work.old.stops a ≡ false → leads onward.now.lists a b ≡ true → holds work.old.needed b ≡ true → holds work.new.seen b ≡ true }
    ensures sound { (a : ℕ) → holds work.new.seen a ≡ true → Spreads onward.now.lists (holds work.old.stops) (leads onward.now.lists block) a }
{
    work.seen.clear();
    expand(onward, &work.needed, &mut work.seen, &mut work.queue, block);
    flood(
        onward,
        &work.stops,
        &work.needed,
        &mut work.seen,
        &mut work.queue,
    );
}

/// Adds the row of the place number k, if the definition has come to its block.
fn emit_at(
    heads: &[u32],
    seen: &Rows,
    entry: u32,
    r: u32,
    k: u32,
    d: u32,
    rows: &mut Vec<(u32, u32, u32)>,
) -> Result<(), Memory>
    requires place { k < length heads.now }
    requires heads { (j : ℕ) → j < length heads.now → slice_index heads.now j < length heads.now }
    requires seen { IsSet (length heads.now) seen.now }
    requires limit { entry + length heads.now < 2 ^ 32 }
    requires definition { d < length heads.now }
    ensures kept { OnOk result ((x : ℕ × ℕ × ℕ) → In x rows.old.items → In x rows.new.items) }
    ensures only { OnOk result ((x : ℕ × ℕ × ℕ) → In x rows.new.items → In x rows.old.items ⊎ ((holds seen.now (slice_index heads.now k) ≡ true) × (x ≡ (entry + k, r, entry + d)))) }
    ensures there { OnOk result (holds seen.now (slice_index heads.now k) ≡ true → In (entry + k, r, entry + d) rows.new.items) }
{
    if !seen.has(0, heads[k as usize]) {
        return Ok(());
    }
    rows.push((entry + k, r, entry + d))?;
    Ok(())
}

/// Adds a row for each place that asks for the register in a block to which the definition has come.
fn emit(
    asks: &Chains,
    heads: &[u32],
    seen: &Rows,
    entry: u32,
    r: u32,
    d: u32,
    rows: &mut Vec<(u32, u32, u32)>,
) -> Result<(), Memory>
    requires register { r < length asks.now.lists }
    requires range { (k : ℕ) → leads asks.now.lists r k ≡ true → k < length heads.now }
    requires heads { (k : ℕ) → k < length heads.now → slice_index heads.now k < length heads.now }
    requires seen { IsSet (length heads.now) seen.now }
    requires limit { entry + length heads.now < 2 ^ 32 }
    requires definition { d < length heads.now }
    ensures kept { OnOk result ((x : ℕ × ℕ × ℕ) → In x rows.old.items → In x rows.new.items) }
    ensures only { OnOk result ((x : ℕ × ℕ × ℕ) → In x rows.new.items → In x rows.old.items ⊎ ((k : ℕ) × (leads asks.now.lists r k ≡ true) × (holds seen.now (slice_index heads.now k) ≡ true) × (x ≡ (entry + k, r, entry + d)))) }
    ensures there { OnOk result ((k : ℕ) → leads asks.now.lists r k ≡ true → holds seen.now (slice_index heads.now k) ≡ true → In (entry + k, r, entry + d) rows.new.items) }
{
    for k in asks.walk(r) {
        emit_at(heads, seen, entry, r, k, d, rows)?;
    }
    Ok(())
}

/// Carries the definition at the place number d from its block on, and adds the rows of the places that it reaches.
fn carry_one(
    net: &Net,
    work: &mut Work,
    asks: &Chains,
    heads: &[u32],
    entry: u32,
    r: u32,
    d: u32,
    rows: &mut Vec<(u32, u32, u32)>,
) -> Result<(), Memory>
    requires work { IsWork (length heads.now) work.old }
    requires count { length net.now.onward.lists ≡ length heads.now }
    requires below { (a b : ℕ) → leads net.now.onward.lists a b ≡ true → b < length heads.now }
    requires register { r < length asks.now.lists }
    requires range { (k : ℕ) → leads asks.now.lists r k ≡ true → k < length heads.now }
    requires heads { (j : ℕ) → j < length heads.now → slice_index heads.now j < length heads.now }
    requires limit { entry + length heads.now < 2 ^ 32 }
    requires definition { d < length heads.now }
    requires needed { Supplies net.now.onward.lists asks.now.lists heads.now r work.old }
    ensures work { IsWork (length heads.now) work.new }
    ensures stops { work.new.stops ≡ work.old.stops }
    ensures needed { work.new.needed ≡ work.old.needed }
    ensures kept { OnOk result ((x : ℕ × ℕ × ℕ) → In x rows.old.items → In x rows.new.items) }
    ensures only { OnOk result ((x : ℕ × ℕ × ℕ) → In x rows.new.items → In x rows.old.items ⊎ ((k : ℕ) × (leads asks.now.lists r k ≡ true) × Spreads net.now.onward.lists (holds work.old.stops) (leads net.now.onward.lists (slice_index heads.now d)) (slice_index heads.now k) × (x ≡ (entry + k, r, entry + d)))) }
    ensures there { OnOk result ((k : ℕ) → leads asks.now.lists r k ≡ true → Spreads net.now.onward.lists (holds work.old.stops) (leads net.now.onward.lists (slice_index heads.now d)) (slice_index heads.now k) → In (entry + k, r, entry + d) rows.new.items) }
{
    follow(&net.onward, work, heads[d as usize]);
    emit(asks, heads, &work.seen, entry, r, d, rows)?;
    Ok(())
}

/// Carries each of the register's definitions that leave their blocks, and adds the rows of the places that they reach.
fn carry_all(
    net: &Net,
    work: &mut Work,
    outs: &Chains,
    asks: &Chains,
    heads: &[u32],
    entry: u32,
    r: u32,
    rows: &mut Vec<(u32, u32, u32)>,
) -> Result<(), Memory>
    requires work { IsWork (length heads.now) work.old }
    requires count { length net.now.onward.lists ≡ length heads.now }
    requires below { (a b : ℕ) → leads net.now.onward.lists a b ≡ true → b < length heads.now }
    requires register { r < length asks.now.lists }
    requires outs { length outs.now.lists ≡ length asks.now.lists }
    requires range { (k : ℕ) → leads asks.now.lists r k ≡ true → k < length heads.now }
    requires range_outs { (d : ℕ) → leads outs.now.lists r d ≡ true → d < length heads.now }
    requires heads { (j : ℕ) → j < length heads.now → slice_index heads.now j < length heads.now }
    requires limit { entry + length heads.now < 2 ^ 32 }
    requires needed { Supplies net.now.onward.lists asks.now.lists heads.now r work.old }
    ensures work { IsWork (length heads.now) work.new }
    ensures kept { OnOk result ((x : ℕ × ℕ × ℕ) → In x rows.old.items → In x rows.new.items) }
    ensures only { OnOk result ((x : ℕ × ℕ × ℕ) → In x rows.new.items → In x rows.old.items ⊎ IsCarried net.now.onward.lists outs.now.lists asks.now.lists heads.now (holds work.old.stops) entry r x) }
    ensures there { OnOk result ((x : ℕ × ℕ × ℕ) → IsCarried net.now.onward.lists outs.now.lists asks.now.lists heads.now (holds work.old.stops) entry r x → In x rows.new.items) }
{
    for d in outs.walk(r) {
        carry_one(net, work, asks, heads, entry, r, d, rows)?;
    }
    Ok(())
}

/// Whether no place asks for the register.
fn is_unasked(asks: &Chains, r: u32) -> bool
    requires register { r < length asks.now.lists }
    ensures { result ≡ true → (k : ℕ) → leads asks.now.lists r k ≡ false }
{
    match asks.walk(r).next() {
        Some(_) => false,
        None => true,
    }
}

/// Adds the rows of register r whose definitions come to the place by way of the first place of its block.
pub fn carry(
    program: &Program,
    function: &Function,
    heads: &[u32],
    net: &Net,
    work: &mut Work,
    outs: &Chains,
    asks: &Chains,
    r: u32,
    rows: &mut Vec<(u32, u32, u32)>,
) -> Result<(), Memory>
    requires well { WellFormed program.now }
    requires function { IsOneOf program.now function.now }
    requires cut { IsCut program.now function.now heads.now }
    requires net { IsNet program.now function.now heads.now (size function.now) net.now.onward.lists net.now.back.lists }
    requires work { IsWork (length heads.now) work.old }
    requires count { length asks.now.lists ≡ length outs.now.lists }
    requires register { r < length asks.now.lists }
    requires outs { AreOuts program.now function.now heads.now 0 outs.now.lists }
    requires asks { AreAsks program.now function.now heads.now (size function.now) asks.now.lists }
    ensures work { IsWork (length heads.now) work.new }
    ensures kept { OnOk result ((x : ℕ × ℕ × ℕ) → In x rows.old.items → In x rows.new.items) }
    ensures only { OnOk result ((x : ℕ × ℕ × ℕ) → In x rows.new.items → In x rows.old.items ⊎ IsFound program.now function.now x) }
    ensures there { OnOk result ((x : ℕ × ℕ × ℕ) → (f : IsFound program.now function.now x) → x.1 ≡ r → IsExposed heads.now (defines_at program.now function.now x.1) f.k → In x rows.new.items) }
{
    if is_unasked(asks, r) {
        return Ok(());
    }
    work.stops.clear();
    mark_blocks(outs, heads, r, &mut work.stops);
    find_needed(&net.back, work, asks, heads, r);
    carry_all(net, work, outs, asks, heads, function.entry, r, rows)?;
    Ok(())
}
