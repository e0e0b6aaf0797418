// The steps between blocks.
ghost use Rattle.std.specs.Prelude.{◌≡◌, ◌↔◌, ◌<◌, ℕ, IfOk, OnOk, true, length};
ghost use Rattle.argot_plain.specs.Lists.{In};
ghost use Rattle.argot_control.specs.Blocks.{IsHead};
ghost use Rattle.argot_control.specs.Numbering.{block_in};
ghost use Rattle.argot_control.specs.Pairs.{Gains};
ghost use Rattle.argot_control.specs.Between.{IsStepOf, IsStep, AreInside};

use crate::uses::gain;
use argot_text::Memory;
use std::alloc::Global;

/// Whether the place begins its block.
fn is_head(numbers: &[u32], place: u32) -> bool
    requires { place < length numbers.now }
    ensures yes { result ≡ true → IsHead (block_in numbers.now) place }
    ensures no { IsHead (block_in numbers.now) place → result ≡ true }
{
    if place == 0 {
        return true;
    }
    numbers[place as usize - 1] != numbers[place as usize]
}

/// Whether the pair is the last one.
fn is_last(pairs: &[(u32, u32)], from: u32, to: u32) -> bool
    ensures { result ≡ true → In (from, to) pairs.now }
{
    if pairs.len() == 0 {
        return false;
    }
    let last = pairs[pairs.len() - 1];
    if last.0 == from {
        if last.1 == to {
            return true;
        }
    }
    false
}

/// Adds a pair, where it isn't the last one already.
fn gain_once(pairs: &mut Vec<(u32, u32)>, from: u32, to: u32) -> Result<(), Memory>
    ensures { OnOk result (Gains (λ a b. (a ≡ from) × (b ≡ to)) pairs.old.items pairs.new.items) }
{
    if is_last(pairs, from, to) {
        return Ok(());
    }
    gain(pairs, from, to)
}

/// Adds the step between the blocks of these places, where the second one begins its block.
fn gain_step(numbers: &[u32], steps: &mut Vec<(u32, u32)>, from: u32, to: u32) -> Result<(), Memory>
    requires from { from < length numbers.now }
    requires to { to < length numbers.now }
    ensures { OnOk result (Gains (IsStepOf (block_in numbers.now) from to) steps.old.items steps.new.items) }
{
    if !is_head(numbers, to) {
        return Ok(());
    }
    gain_once(steps, numbers[from as usize], numbers[to as usize])
}

/// The steps between blocks that these pairs of places make.
pub(crate) fn steps_of(
    alloc: Global,
    numbers: &[u32],
    pairs: &[(u32, u32)],
) -> Result<Vec<(u32, u32)>, Memory>
    requires { AreInside (length numbers.now) pairs.now }
    ensures { IfOk result (λ v. (x y : ℕ) → In (x, y) v.items ↔ IsStep (block_in numbers.now) pairs.now x y) }
{
    let mut steps = Vec::new(alloc);
    for k in 0..pairs.len() {
        gain_step(numbers, &mut steps, pairs[k].0, pairs[k].1)?;
    }
    Ok(steps)
}
