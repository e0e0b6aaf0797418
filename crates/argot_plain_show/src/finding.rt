// The relation of a program, by the body that is asked for.
ghost use Rattle.std.specs.Prelude.{IfOk, IfErr};
ghost use Rattle.argot_facts.specs.Exact.{AreDefs, AreEscaping, ArePoints};
ghost use Rattle.argot_points.specs.Solving.{HasFew, HasMany};

use argot_escape::escapes;
use argot_facts::{Defs, Points};
use argot_plain::Program;
use argot_points::{PointsFault, Solver, solve};
use argot_ssa::defs;
use argot_text::Memory;
use std::alloc::Global;

/// The reaching definitions.
pub fn definitions(alloc: Global, program: &Program) -> Result<Defs, Memory>
    ensures { IfOk result (AreDefs program.now) }
{
    defs(alloc, program)
}

/// The relation, found by the worklist.
pub fn points(alloc: Global, program: &Program) -> Result<Points, PointsFault>
    ensures { IfOk result (ArePoints program.now) }
{
    let found = definitions(alloc, program)?;
    solve(alloc, program, &found)
}

/// The relation by exactly these definitions, found in passes.
fn solve_by_passes(alloc: Global, program: &Program, defs: &Defs) -> Result<Points, PointsFault>
    requires { AreDefs program.now defs.now }
    ensures points { IfOk result (ArePoints program.now) }
    ensures few { IfOk result (λ v. HasFew program.now) }
    ensures fault { IfErr result (HasMany program.now) }
{
    let mut solver = match Solver::new(alloc, program, defs) {
        Ok(solver) => solver,
        Err(fault) => return Err(fault),
    };
    solver.run_by_passes();
    match solver.points(alloc) {
        Ok(points) => Ok(points),
        Err(_) => Err(PointsFault::Memory),
    }
}

/// The relation, found in passes.
pub fn points_by_passes(alloc: Global, program: &Program) -> Result<Points, PointsFault>
    ensures { IfOk result (ArePoints program.now) }
{
    let found = definitions(alloc, program)?;
    solve_by_passes(alloc, program, &found)
}

/// Which sites escape.
pub fn escaping(alloc: Global, program: &Program) -> Result<Vec<bool>, PointsFault>
    ensures { IfOk result (λ v. AreEscaping program.now v.items) }
{
    let points = points(alloc, program)?;
    match escapes(alloc, program, &points) {
        Ok(sites) => Ok(sites),
        Err(Memory) => Err(PointsFault::Memory),
    }
}
