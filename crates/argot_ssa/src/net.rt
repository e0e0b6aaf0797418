// The edges between the blocks of a function, each block known by its first place, counted from the entry.
ghost use Rattle.std.specs.Prelude.{◌≡◌, ℕ, ◌+◌, ◌-◌, ◌<◌, ◌≤◌, ◌⊎◌, length, slice_index, true, OnOk, IfOk};
ghost use Rattle.argot_links.specs.Pairs.{AddsPair};
ghost use Rattle.argot_plain.specs.WellFormed.{WellFormed};
ghost use Rattle.argot_ssa.specs.Edges.{leads};
ghost use Rattle.argot_ssa.specs.Places.{size, IsOneOf, IsCut, IsNet, Mirrored};

use crate::cut::count_places;
use crate::growing::link;
use crate::places::push_next;
use argot_links::Chains;
use argot_plain::{Function, Program};
use argot_text::Memory;
use std::alloc::Global;

/// The edges, and the same edges turned.
#[derive(Drop)]
pub struct Net {
    pub onward: Chains,
    pub back: Chains,
}

/// Adds an edge from a to b.
fn join(net: &mut Net, a: u32, b: u32) -> Result<(), Memory>
    requires start { a < length net.old.onward.lists }
    requires end { b < length net.old.back.lists }
    requires mirror { Mirrored net.old.onward.lists net.old.back.lists }
    ensures count { length net.new.onward.lists ≡ length net.old.onward.lists }
    ensures count_back { length net.new.back.lists ≡ length net.old.back.lists }
    ensures adds { OnOk result (AddsPair (leads net.old.onward.lists) (leads net.new.onward.lists) a b) }
    ensures mirror { OnOk result (Mirrored net.new.onward.lists net.new.back.lists) }
{
    link(&mut net.onward, a, b)?;
    link(&mut net.back, b, a)?;
    Ok(())
}

/// Adds an edge from the block to each of these places that begins a block.
fn join_all(
    targets: &[u32],
    entry: u32,
    heads: &[u32],
    block: u32,
    net: &mut Net,
) -> Result<(), Memory>
    requires low { (j : ℕ) → j < length targets.now → entry ≤ slice_index targets.now j }
    requires high { (j : ℕ) → j < length targets.now → slice_index targets.now j - entry < length heads.now }
    requires block { block < length heads.now }
    requires count { length net.old.onward.lists ≡ length heads.now }
    requires count_back { length net.old.back.lists ≡ length heads.now }
    requires mirror { Mirrored net.old.onward.lists net.old.back.lists }
    ensures count { length net.new.onward.lists ≡ length heads.now }
    ensures count_back { length net.new.back.lists ≡ length heads.now }
    ensures mirror { OnOk result (Mirrored net.new.onward.lists net.new.back.lists) }
    ensures kept { OnOk result ((a b : ℕ) → leads net.old.onward.lists a b ≡ true → leads net.new.onward.lists a b ≡ true) }
    ensures there { OnOk result ((j : ℕ) → j < length targets.now → slice_index heads.now (slice_index targets.now j - entry) ≡ slice_index targets.now j - entry → leads net.new.onward.lists block (slice_index targets.now j - entry) ≡ true) }
    ensures only { OnOk result ((a b : ℕ) → leads net.new.onward.lists a b ≡ true → (leads net.old.onward.lists a b ≡ true) ⊎ ((j : ℕ) × (j < length targets.now) × (a ≡ block) × (b ≡ slice_index targets.now j - entry) × (slice_index heads.now b ≡ b))) }
{
    for target in targets {
        let place = *target - entry;
        if heads[place as usize] == place {
            join(net, block, place)?;
        }
    }
    Ok(())
}

/// Adds the edges on account of the place number k.
fn join_at(
    program: &Program,
    function: &Function,
    heads: &[u32],
    k: u32,
    targets: &mut Vec<u32>,
    net: &mut Net,
) -> Result<(), Memory>
    requires well { WellFormed program.now }
    requires function { IsOneOf program.now function.now }
    requires place { k < size function.now }
    requires cut { IsCut program.now function.now heads.now }
    requires net { IsNet program.now function.now heads.now k net.old.onward.lists net.old.back.lists }
    ensures { OnOk result (IsNet program.now function.now heads.now (k + 1) net.new.onward.lists net.new.back.lists) }
{
    let place = function.entry + k;
    targets.clear();
    push_next(program.kind(place as usize), place, targets)?;
    let block = heads[k as usize];
    join_all(targets.as_slice(), function.entry, heads, block, net)?;
    Ok(())
}

/// The edges between the blocks of a function.
pub fn make_net(
    alloc: Global,
    program: &Program,
    function: &Function,
    heads: &[u32],
) -> Result<Net, Memory>
    requires well { WellFormed program.now }
    requires function { IsOneOf program.now function.now }
    requires cut { IsCut program.now function.now heads.now }
    ensures { IfOk result (λ n. IsNet program.now function.now heads.now (size function.now) n.onward.lists n.back.lists) }
{
    let count = count_places(program, function);
    let onward = Chains::new(alloc, count)?;
    let back = Chains::new(alloc, count)?;
    let mut net = Net { onward, back };
    let mut targets = Vec::new(alloc);
    for k in 0..count {
        join_at(program, function, heads, k, &mut targets, &mut net)?;
    }
    Ok(net)
}
