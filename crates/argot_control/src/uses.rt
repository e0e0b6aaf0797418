// Pairs of places between which a Call or a Defer takes control.
ghost use Rattle.std.specs.Prelude.{◌≡◌, ◌<◌, ℕ, OnOk, length};
ghost use Rattle.argot_plain.specs.Lists.{In};
ghost use Rattle.argot_plain.specs.WellFormed.{WellFormed};
ghost use Rattle.argot_facts.specs.Pointing.{FitsPoints};
ghost use Rattle.argot_control.specs.Pairs.{Gains, pairs_of_call, pairs_of_defer, UseLeads, TargetsLead, UsesLead};

use argot_facts::Points;
use argot_plain::{Function, Kind, Program};
use argot_text::Memory;

/// Adds a pair.
pub(crate) fn gain(pairs: &mut Vec<(u32, u32)>, from: u32, to: u32) -> Result<(), Memory>
    ensures { OnOk result (Gains (λ a b. (a ≡ from) × (b ≡ to)) pairs.old.items pairs.new.items) }
{
    pairs.push((from, to))?;
    Ok(())
}

/// Adds these pairs.
fn gain_all(pairs: &mut Vec<(u32, u32)>, more: &[(u32, u32)]) -> Result<(), Memory>
    ensures { OnOk result (Gains (λ a b. In (a, b) more.now) pairs.old.items pairs.new.items) }
{
    for k in 0..more.len() {
        gain(pairs, more[k].0, more[k].1)?;
    }
    Ok(())
}

/// Adds the pairs of a Call at the place of the function `own`.
fn gain_call(
    pairs: &mut Vec<(u32, u32)>,
    place: u32,
    own: &Function,
    target: &Function,
) -> Result<(), Memory>
    requires { place < 4294967295 }
    ensures { OnOk result (Gains (λ a b. In (a, b) (pairs_of_call target.now.external place own.now target.now)) pairs.old.items pairs.new.items) }
{
    match target.external {
        None => gain_all(
            pairs,
            &[
                (place, target.entry),
                (target.leave, place + 1),
                (target.exit, own.exit),
                (target.leave, own.exit),
            ],
        ),
        Some(_) => gain_all(pairs, &[(place, target.entry)]),
    }
}

/// Adds the pairs of a Defer in the function `own`.
fn gain_defer(pairs: &mut Vec<(u32, u32)>, own: &Function, target: &Function) -> Result<(), Memory>
    ensures { OnOk result (Gains (λ a b. In (a, b) (pairs_of_defer target.now.external own.now target.now)) pairs.old.items pairs.new.items) }
{
    match target.external {
        None => gain_all(
            pairs,
            &[
                (own.exit, target.entry),
                (target.exit, own.exit),
                (target.leave, own.exit),
            ],
        ),
        Some(_) => gain_all(pairs, &[(own.exit, target.entry)]),
    }
}

/// Adds the pairs of a place of the function h with this target.
fn gain_use(
    program: &Program,
    pairs: &mut Vec<(u32, u32)>,
    h: u32,
    place: u32,
    target: u32,
) -> Result<(), Memory>
    requires function { h < length program.now.functions }
    requires place { place < length program.now.instrs }
    requires target { target < length program.now.functions }
    requires well { WellFormed program.now }
    ensures { OnOk result (Gains (UseLeads program.now h place target) pairs.old.items pairs.new.items) }
{
    let own = program.function(h as usize);
    let of = program.function(target as usize);
    match program.kind(place as usize) {
        Kind::Call { .. } => gain_call(pairs, place, own, of),
        Kind::Defer { .. } => gain_defer(pairs, own, of),
        _ => Ok(()),
    }
}

/// Adds the pairs of a place of the function h with each of its targets.
fn gain_targets(
    program: &Program,
    points: &Points,
    pairs: &mut Vec<(u32, u32)>,
    h: u32,
    place: u32,
) -> Result<(), Memory>
    requires function { h < length program.now.functions }
    requires place { place < length program.now.instrs }
    requires fits { FitsPoints program.now points.now }
    requires well { WellFormed program.now }
    ensures { OnOk result (Gains (TargetsLead program.now points.now h place) pairs.old.items pairs.new.items) }
{
    let targets = points.targets_of(place);
    for k in 0..targets.len() {
        gain_use(program, pairs, h, place, targets[k])?;
    }
    Ok(())
}

/// Adds the pairs of the places of the function h with their targets.
fn gain_function(
    program: &Program,
    points: &Points,
    pairs: &mut Vec<(u32, u32)>,
    h: u32,
) -> Result<(), Memory>
    requires function { h < length program.now.functions }
    requires fits { FitsPoints program.now points.now }
    requires well { WellFormed program.now }
    ensures { OnOk result (Gains (UsesLead program.now points.now h) pairs.old.items pairs.new.items) }
{
    let own = program.function(h as usize);
    for place in own.entry..own.leave + 1 {
        gain_targets(program, points, pairs, h, place)?;
    }
    Ok(())
}

/// Adds the pairs of all places with their targets.
pub(crate) fn gain_uses(
    program: &Program,
    points: &Points,
    pairs: &mut Vec<(u32, u32)>,
) -> Result<(), Memory>
    requires fits { FitsPoints program.now points.now }
    ensures well { WellFormed program.now }
    ensures gains { OnOk result (Gains (λ a b. (h : ℕ) × UsesLead program.now points.now h a b) pairs.old.items pairs.new.items) }
{
    for h in 0..program.function_count() {
        gain_function(program, points, pairs, h as u32)?;
    }
    Ok(())
}
