// A problem of a configuration, for a program.
ghost use Rattle.std.specs.Prelude.{◌<◌, IfOk, IfSome, length, slice_get};
ghost use Rattle.argot_plain.specs.Fitting.{Fits};
ghost use Rattle.argot_config.specs.Asking.{IsProblem};

use crate::functions::functions;
use crate::packages::Packages;
use crate::places::places;
use argot_config_read::{Asked, Config};
use argot_plain::{Problem, Program};
use argot_text::{Memory, Text};
use std::alloc::Global;

/// The problem number k of the configuration, for this program: the numbers of the functions that its matchers name,
/// and the Reads and Moves through fields and variables that they name. What it names is the program's.
pub fn problem(alloc: Global, config: &Config, k: u32, program: &Program) -> Result<Problem, Memory>
    requires { k < length config.now.problems }
    ensures is { IfOk result (λ pr. IfSome (slice_get config.now.problems k) (λ asked. IsProblem program.now asked k pr)) }
    ensures fits { IfOk result (Fits program.now) }
{
    let made = asked_of(alloc, &config.problems.as_vec()[k as usize], k, program)?;
    Ok(made)
}

// The problem that is asked for, with its number.
fn asked_of(alloc: Global, asked: &Asked, number: u32, program: &Program) -> Result<Problem, Memory>
    ensures { IfOk result (IsProblem program.now asked.now number) }
{
    let packages = Packages::new(alloc, program)?;
    Ok(Problem {
        number,
        name: Text::from_str(alloc, asked.name.as_str())?,
        sources: functions(alloc, asked.sources.as_slice(), program, &packages)?,
        sinks: functions(alloc, asked.sinks.as_slice(), program, &packages)?,
        sanitizers: functions(alloc, asked.sanitizers.as_slice(), program, &packages)?,
        validators: functions(alloc, asked.validators.as_slice(), program, &packages)?,
        points: functions(alloc, asked.points.as_slice(), program, &packages)?,
        source_places: places(alloc, asked.sources.as_slice(), program)?,
        escapes: asked.escapes,
    })
}
