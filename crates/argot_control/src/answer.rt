// Control order of a program.
ghost use Rattle.std.specs.Prelude.{IfOk};
ghost use Rattle.argot_facts.specs.Exact.{ArePoints, AreFollowing, AreFollowingBy};
ghost use Rattle.argot_facts.specs.Handed.{FactsOf};
ghost use Rattle.argot_facts.specs.Pointing.{FitsPoints};

use crate::accesses::{reads_of, writes_of};
use crate::blocks::lead;
use crate::order::Control;
use argot_facts::Points;
use argot_plain::Program;
use argot_text::Memory;
use std::alloc::Global;

/// Control order of a program: by what the tables of points-to have, and by the program where they are exact.
pub fn control(alloc: Global, program: &Program, points: &Points) -> Result<Control, Memory>
    requires { FitsPoints program.now points.now }
    ensures handed { IfOk result (λ c. AreFollowingBy program.now (FactsOf program.now points.now) c) }
    ensures exact { ArePoints program.now points.now → IfOk result (λ c. AreFollowing program.now c) }
{
    let blocks = lead(alloc, program, points)?;
    let writes = writes_of(alloc, program)?;
    let reads = reads_of(alloc, program)?;
    Ok(Control::of(blocks, writes, reads))
}
