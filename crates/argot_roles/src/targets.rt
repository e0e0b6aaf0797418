// Which targets count as functions of a list.
ghost use Rattle.std.specs.Prelude.{◌≡◌, ◌<◌, ℕ, Some, IfOk, length};
ghost use Rattle.argot_plain.specs.Counts.{counted_as};
ghost use Rattle.argot_plain.specs.Lists.{In};
ghost use Rattle.argot_roles.specs.Counting.{flag_at, AreCounted};

use crate::marking::listed;
use crate::wrapped::is_wrapper;
use argot_plain::{Function, Program};
use argot_text::Memory;
use std::alloc::Global;

/// As which function a target counts: for a wrapper its method, where it is declared.
fn counted_as(function: &Function, number: u32) -> Option<u32>
    ensures { result ≡ counted_as (Some function.now) number }
{
    if is_wrapper(function) {
        return function.wraps;
    }
    Some(number)
}

/// Whether the flag of the function is set; where there is none, it isn't.
fn flag_at(flags: &[bool], function: Option<u32>) -> bool
    ensures { result ≡ flag_at flags.now function }
{
    match function {
        Some(h) => match flags.get(h as usize) {
            Some(flag) => *flag,
            None => false,
        },
        None => false,
    }
}

/// For each function whether it counts as one of these.
pub fn counted(alloc: Global, program: &Program, numbers: &[u32]) -> Result<Vec<bool>, Memory>
    requires { (h : ℕ) → In h numbers.now → h < length program.now.functions }
    ensures { IfOk result (λ v. AreCounted program.now numbers.now v.items) }
{
    let flags = listed(alloc, numbers, program.function_count())?;
    let mut counted = Vec::with_capacity(alloc, program.function_count())?;
    for h in 0..program.function_count() {
        counted.push(flag_at(&flags, counted_as(program.function(h), h as u32)))?;
    }
    Ok(counted)
}
