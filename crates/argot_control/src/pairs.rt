// All pairs of places between which control goes at once.
ghost use Rattle.std.specs.Prelude.{◌≡◌, ◌↔◌, ℕ, IfOk};
ghost use Rattle.argot_plain.specs.Lists.{In};
ghost use Rattle.argot_plain.specs.WellFormed.{WellFormed};
ghost use Rattle.argot_facts.specs.Follows.{DirectlyFollowsBy};
ghost use Rattle.argot_facts.specs.Handed.{FactsOf};
ghost use Rattle.argot_facts.specs.Pointing.{FitsPoints};

use crate::live::gain_live;
use crate::uses::gain_uses;
use argot_facts::Points;
use argot_plain::Program;
use argot_text::Memory;
use std::alloc::Global;

/// The pairs of places such that control goes from the one to the other at once.
pub(crate) fn pairs_of(
    alloc: Global,
    program: &Program,
    points: &Points,
) -> Result<Vec<(u32, u32)>, Memory>
    requires { FitsPoints program.now points.now }
    ensures well { IfOk result (λ v. WellFormed program.now) }
    ensures exact { IfOk result (λ v. (a b : ℕ) → In (a, b) v.items ↔ DirectlyFollowsBy program.now (FactsOf program.now points.now) a b) }
{
    let mut pairs = Vec::new(alloc);
    gain_uses(program, points, &mut pairs)?;
    gain_live(program, points, &mut pairs)?;
    Ok(pairs)
}
