// Calls by number inside wrappers, which count as nothing.
ghost use Rattle.std.specs.Prelude.{◌≡◌, ◌≤◌, ◌<◌, IfOk, length, slice_get, Some, IsTrue};
ghost use Rattle.argot_plain.specs.Counts.{is_wrapper, is_static, calls_by_number, is_left_out};
ghost use Rattle.argot_roles.specs.Counting.{Wraps, IsWrapped, AreLeftOut};
ghost use Rattle.argot_roles.specs.Marking.{Marks, AreMarked};

use crate::marking::{no_flags, set, set_range};
use argot_facts::is_marked;
use argot_plain::{Callee, Function, Kind, Program, Role};
use argot_text::Memory;
use std::alloc::Global;

/// Whether the function is a wrapper.
pub(crate) fn is_wrapper(function: &Function) -> bool
    ensures { result ≡ is_wrapper function.now.role }
{
    match function.role {
        Role::Wrapper => true,
        Role::Own | Role::Bound => false,
    }
}

/// Sets the flags of the places of a function, where it is a wrapper.
fn set_within(flags: &mut Vec<bool>, function: &Function)
    requires { function.now.entry ≤ function.now.leave }
    ensures { Marks (Wraps function.now) flags.old.items flags.new.items }
{
    if is_wrapper(function) {
        set_range(flags, function.entry, function.leave);
        set(flags, function.leave);
    }
}

/// Sets the flags of the places of all wrappers.
fn set_wrapped(flags: &mut Vec<bool>, program: &Program)
    ensures { Marks (IsWrapped program.now) flags.old.items flags.new.items }
{
    for h in 0..program.function_count() {
        set_within(flags, program.function(h));
    }
}

/// Whether the callee is named by its number.
fn is_static(callee: &Callee) -> bool
    ensures { result ≡ is_static callee.now }
{
    match callee {
        Callee::Static(_) => true,
        Callee::Value(_) | Callee::Method(..) => false,
    }
}

/// Whether the instruction is a Call, Go or Defer by number.
fn calls_by_number(kind: &Kind) -> bool
    ensures { result ≡ calls_by_number (Some kind.now) }
{
    match kind {
        Kind::Call { callee, .. } | Kind::Go { callee, .. } | Kind::Defer { callee, .. } => {
            is_static(callee)
        }
        _ => false,
    }
}

/// Whether the place is left out, where the flags are those of wrappers' places.
fn is_out(program: &Program, wrapped: &[bool], place: usize) -> bool
    requires inside { place < length program.now.instrs }
    requires wrapped { AreMarked (IsWrapped program.now) (length program.now.instrs) wrapped.now }
    ensures { result ≡ is_left_out program.now place }
{
    let inside = is_marked(wrapped, place);
    let calls = calls_by_number(program.kind(place));
    calls && inside
}

/// The flags of the places of wrappers.
fn wrapped(alloc: Global, program: &Program) -> Result<Vec<bool>, Memory>
    ensures { IfOk result (λ v. AreMarked (IsWrapped program.now) (length program.now.instrs) v.items) }
{
    let mut flags = no_flags(alloc, program.len())?;
    set_wrapped(&mut flags, program);
    Ok(flags)
}

/// For each place whether it is left out.
pub fn left_out(alloc: Global, program: &Program) -> Result<Vec<bool>, Memory>
    ensures { IfOk result (λ v. AreLeftOut program.now v.items) }
{
    let wrapped = wrapped(alloc, program)?;
    let mut out = Vec::with_capacity(alloc, program.len())?;
    for place in 0..program.len() {
        out.push(is_out(program, &wrapped, place))?;
    }
    Ok(out)
}
