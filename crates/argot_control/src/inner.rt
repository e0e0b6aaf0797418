// Places from which control goes straight on within their block.
ghost use Rattle.std.specs.Prelude.{◌≡◌, ◌<◌, ℕ, IfOk, true, length};
ghost use Rattle.argot_plain.specs.Lists.{In};
ghost use Rattle.argot_plain.specs.WellFormed.{WellFormed};
ghost use Rattle.argot_plain.specs.Code.{IsIn};
ghost use Rattle.argot_facts.specs.Handed.{FactsOf};
ghost use Rattle.argot_facts.specs.Marked.{IsSet};
ghost use Rattle.argot_control.specs.Blocks.{GoesStraightOn, IsStraightOn};
ghost use Rattle.argot_control.specs.Numbering.{Chooses, GoesOnWithin, AreEntered};

use argot_facts::{Points, is_marked, mark};
use argot_plain::{Kind, Program};
use argot_text::Memory;
use std::alloc::Global;

/// Whether the instruction goes on to the next place and calls nothing.
fn goes_straight_on(kind: &Kind) -> bool
    ensures { result ≡ true → GoesStraightOn kind.now }
{
    match kind {
        Kind::Call { .. }
        | Kind::RunDefers
        | Kind::Leave { .. }
        | Kind::Goto { .. }
        | Kind::Branch { .. }
        | Kind::Panic { .. } => false,
        _ => true,
    }
}

/// Whether the instruction at the place goes straight on to one without a flag.
fn goes_on_within(program: &Program, flags: &[bool], place: usize) -> bool
    requires inside { place < length program.now.instrs }
    requires well { WellFormed program.now }
    ensures { result ≡ true → GoesOnWithin program.now flags.now place }
{
    let next = place + 1;
    if next >= flags.len() || is_marked(flags, next) {
        return false;
    }
    goes_straight_on(program.kind(place))
}

/// Chooses such places of a function.
fn choose_within(program: &Program, flags: &[bool], inner: &mut Vec<bool>, function: u32)
    requires inside { function < length program.now.functions }
    requires count { length inner.old.items ≡ length program.now.instrs }
    requires well { WellFormed program.now }
    ensures { Chooses (λ m. IsIn program.now m function × GoesOnWithin program.now flags.now m) inner.old.items inner.new.items }
{
    let of = program.function(function as usize);
    for place in of.entry..of.leave {
        if goes_on_within(program, flags, place as usize) {
            mark(inner, place as usize);
        }
    }
}

/// Chooses such places of live functions.
fn choose_all(program: &Program, points: &Points, flags: &[bool], inner: &mut Vec<bool>)
    requires entered { AreEntered program.now flags.now }
    requires inside { (h : ℕ) → In h points.now.live → h < length program.now.functions }
    requires count { length inner.old.items ≡ length program.now.instrs }
    requires well { WellFormed program.now }
    ensures { Chooses (IsStraightOn program.now (FactsOf program.now points.now)) inner.old.items inner.new.items }
{
    let live = points.live();
    for k in 0..live.len() {
        choose_within(program, flags, inner, live[k]);
    }
}

/// For each place whether it is such a one.
pub(crate) fn inner(
    alloc: Global,
    program: &Program,
    points: &Points,
    flags: &[bool],
) -> Result<Vec<bool>, Memory>
    requires entered { AreEntered program.now flags.now }
    requires inside { (h : ℕ) → In h points.now.live → h < length program.now.functions }
    ensures count { IfOk result (λ v. length v.items ≡ length program.now.instrs) }
    ensures well { IfOk result (λ v. WellFormed program.now) }
    ensures straight { IfOk result (λ v. (m : ℕ) → IsSet v.items m → IsStraightOn program.now (FactsOf program.now points.now) m) }
{
    let mut inner = vec![in alloc; false; program.len()]?;
    choose_all(program, points, flags, &mut inner);
    Ok(inner)
}
