// The points-to relation of a program, whole.
ghost use Rattle.std.specs.Prelude.{IfOk, IfErr};
ghost use Rattle.argot_facts.specs.Exact.{AreDefs, ArePoints};
ghost use Rattle.argot_points.specs.Solving.{HasFew, HasMany};

use crate::solver::Solver;
use argot_facts::{Defs, Points};
use argot_plain::Program;
use argot_points_rules::PointsFault;
use std::alloc::Global;

/// The points-to relation of a program with exactly its definitions. Faults stand in the order of the limits.
pub fn solve(alloc: Global, program: &Program, defs: &Defs) -> Result<Points, PointsFault>
    requires { AreDefs program.now defs.now }
    ensures points { IfOk result (ArePoints program.now) }
    ensures few { IfOk result (λ v. HasFew program.now) }
    ensures fault { IfErr result (HasMany program.now) }
{
    let mut solver = match Solver::new(alloc, program, defs) {
        Ok(solver) => solver,
        Err(fault) => return Err(fault),
    };
    solver.run();
    match solver.points(alloc) {
        Ok(points) => Ok(points),
        Err(_) => Err(PointsFault::Memory),
    }
}
