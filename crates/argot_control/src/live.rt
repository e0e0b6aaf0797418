// Pairs of places between which control goes within a live function.
ghost use Rattle.std.specs.Prelude.{◌≡◌, ◌⊎◌, ◌+◌, ◌<◌, ◌≤◌, ◌==◌, ℕ, OnOk, false, length};
ghost use Rattle.argot_plain.specs.Lists.{In};
ghost use Rattle.argot_plain.specs.WellFormed.{WellFormed};
ghost use Rattle.argot_control.specs.Pairs.{Gains, GoesOnAt, GoesOnIn, ExitsIn, LiveLeads};

use crate::uses::gain;
use argot_facts::Points;
use argot_plain::{Kind, Program};
use argot_text::Memory;

/// Adds the pair of a Goto, but for one that names itself.
fn gain_goto(pairs: &mut Vec<(u32, u32)>, place: u32, target: u32) -> Result<(), Memory>
    ensures { OnOk result (Gains (λ a b. (a ≡ place) × (b ≡ target) × ((target == place) ≡ false)) pairs.old.items pairs.new.items) }
{
    if target == place {
        return Ok(());
    }
    gain(pairs, place, target)
}

/// Adds the pairs of a Branch.
fn gain_branch(pairs: &mut Vec<(u32, u32)>, place: u32, targets: &[u32]) -> Result<(), Memory>
    ensures { OnOk result (Gains (λ a b. (a ≡ place) × In b targets.now) pairs.old.items pairs.new.items) }
{
    for k in 0..targets.len() {
        gain(pairs, place, targets[k])?;
    }
    Ok(())
}

/// Adds the pairs of a place with its successors.
fn gain_next(program: &Program, pairs: &mut Vec<(u32, u32)>, place: u32) -> Result<(), Memory>
    requires inside { place < length program.now.instrs }
    requires well { WellFormed program.now }
    ensures { OnOk result (Gains (GoesOnAt program.now place) pairs.old.items pairs.new.items) }
{
    match program.kind(place as usize) {
        Kind::Goto { target } => gain_goto(pairs, place, *target),
        Kind::Branch { targets } => gain_branch(pairs, place, targets.as_slice()),
        Kind::Leave { .. } | Kind::Panic { .. } => Ok(()),
        _ => gain(pairs, place, place + 1),
    }
}

/// Adds the pairs of the places of a function with their successors.
fn gain_nexts(program: &Program, pairs: &mut Vec<(u32, u32)>, h: u32) -> Result<(), Memory>
    requires function { h < length program.now.functions }
    requires well { WellFormed program.now }
    ensures { OnOk result (Gains (GoesOnIn program.now h) pairs.old.items pairs.new.items) }
{
    let own = program.function(h as usize);
    for place in own.entry..own.leave + 1 {
        gain_next(program, pairs, place)?;
    }
    Ok(())
}

/// Adds the pairs of the places up to `leave` with this exit.
fn gain_exit(pairs: &mut Vec<(u32, u32)>, entry: u32, leave: u32, exit: u32) -> Result<(), Memory>
    requires small { leave < 4294967295 }
    requires rising { entry ≤ leave + 1 }
    ensures { OnOk result (Gains (λ a b. (entry ≤ a) × (a ≤ leave) × (b ≡ exit)) pairs.old.items pairs.new.items) }
{
    for place in entry..leave + 1 {
        gain(pairs, place, exit)?;
    }
    Ok(())
}

/// Adds the pairs of the places of a function with its exit, where it has a body.
fn gain_exits(program: &Program, pairs: &mut Vec<(u32, u32)>, h: u32) -> Result<(), Memory>
    requires function { h < length program.now.functions }
    requires well { WellFormed program.now }
    ensures { OnOk result (Gains (ExitsIn program.now h) pairs.old.items pairs.new.items) }
{
    let own = program.function(h as usize);
    match own.external {
        None => gain_exit(pairs, own.entry, own.leave, own.exit),
        Some(_) => Ok(()),
    }
}

/// Adds both.
fn gain_both(program: &Program, pairs: &mut Vec<(u32, u32)>, h: u32) -> Result<(), Memory>
    requires function { h < length program.now.functions }
    requires well { WellFormed program.now }
    ensures { OnOk result (Gains (λ a b. GoesOnIn program.now h a b ⊎ ExitsIn program.now h a b) pairs.old.items pairs.new.items) }
{
    gain_nexts(program, pairs, h)?;
    gain_exits(program, pairs, h)?;
    Ok(())
}

/// Adds the pairs of the places of live functions with their successors and exits.
pub(crate) fn gain_live(
    program: &Program,
    points: &Points,
    pairs: &mut Vec<(u32, u32)>,
) -> Result<(), Memory>
    requires inside { (h : ℕ) → In h points.now.live → h < length program.now.functions }
    requires well { WellFormed program.now }
    ensures { OnOk result (Gains (LiveLeads program.now points.now) pairs.old.items pairs.new.items) }
{
    let live = points.live();
    for k in 0..live.len() {
        gain_both(program, pairs, live[k])?;
    }
    Ok(())
}
