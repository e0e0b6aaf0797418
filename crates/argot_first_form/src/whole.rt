//! A whole file.

ghost use Rattle.std.specs.Prelude.{IfOk, IsTrue, ◌↔◌};
ghost use Rattle.argot_first_form.specs.Whole.{IsProgramOf, NamesFit};

use crate::brackets::brackets_fit;
use crate::conditions::functions_fit;
use crate::fault::Fault;
use crate::lines::{Program, read_all};
use crate::names::scope_of;
use crate::scopes::steps_fit;
use std::alloc::{AllocError, Global};

/// The program whose text this is; None where the text isn't of the first form.
#[tactic(auto, using(crate::proofs::Programs::found, crate::proofs::Programs::unread, crate::proofs::Programs::unfit, crate::proofs::Programs::long, crate::proofs::Programs::deep))]
pub fn read(alloc: Global, bytes: &[u8]) -> Result<Option<Program>, AllocError>
    ensures { IfOk result (IsProgramOf bytes.now) }
{
    if bytes.len() > 4096 || !brackets_fit(bytes) {
        return Ok(None);
    }
    let program = match read_all(alloc, bytes) {
        Ok(program) => program,
        Err(Fault::OtherForm) => return Ok(None),
        Err(Fault::Memory) => return Err(AllocError),
    };
    if fits(alloc, &program)? {
        Ok(Some(program))
    } else {
        Ok(None)
    }
}

// Whether the names of a program meet the conditions.
fn fits(alloc: Global, program: &Program) -> Result<bool, AllocError>
    ensures { IfOk result (λ b. IsTrue b ↔ NamesFit program.now) }
{
    let scope = scope_of(alloc, program.functions.as_slice())?;
    let functions = functions_fit(alloc, &scope)?;
    Ok(functions && steps_fit(alloc, &scope, program.steps.as_slice())?)
}
