//! The answer for a file.

ghost use Rattle.std.specs.Prelude.{IfOk};
ghost use Rattle.argot_first_form.specs.Whole.{IsProgram};
ghost use Rattle.argot_first.specs.Answer.{IsAnswer};

use crate::flows::flows;
use crate::found::Answer;
use crate::lowering::lower;
use crate::report::{all_places, positions, report};
use argot_first_form::{Program, read};
use argot_text::Memory;
use std::alloc::Global;

/// What is said of a file with these bytes.
pub fn analyse_first(alloc: Global, bytes: &[u8]) -> Result<Answer, Memory>
    ensures { IfOk result (IsAnswer bytes.now) }
{
    match read(alloc, bytes)? {
        Some(program) => answer(alloc, bytes, &program),
        None => Ok(Answer::Unsupported),
    }
}

// The answer for a file that is this program's.
#[tactic(auto, using(crate::proofs::Answers::reported, crate::proofs::Answers::few_functions, crate::proofs::Answers::few_steps, crate::proofs::Answers::inside, crate::proofs::Answers::short))]
fn answer(alloc: Global, bytes: &[u8], program: &Program) -> Result<Answer, Memory>
    requires { IsProgram bytes.now program.now }
    ensures { IfOk result (IsAnswer bytes.now) }
{
    let functions = program.functions.as_slice();
    let steps = program.steps.as_slice();
    // the opening function has five places, and main's first one stands before its steps
    let base = all_places(functions) + 6;
    let kinds = lower(alloc, functions, steps)?;
    let flows = flows(alloc, functions, base, kinds.as_slice())?;
    let positions = positions(alloc, bytes, steps)?;
    let text = report(alloc, positions.as_slice(), base, flows.as_slice())?;
    Ok(Answer::Report {
        count: flows.len(),
        text,
    })
}
