// Places that write memory, and places that read it.
ghost use Rattle.std.specs.Prelude.{◌≡◌, ◌↔◌, ◌<◌, ℕ, IfOk, true, length};
ghost use Rattle.argot_plain.specs.Code.{arguments};
ghost use Rattle.argot_plain.specs.WellFormed.{WellFormed};
ghost use Rattle.argot_facts.specs.Exact.{WritesMemory, ReadsMemory};
ghost use Rattle.argot_facts.specs.Marked.{IsSet};
ghost use Rattle.argot_control.specs.Accesses.{Writes, Reads, StandsAt, GainsFlags, DefersAt, DefersIn};

use argot_facts::mark;
use argot_plain::{Callee, Kind, Program};
use argot_text::Memory;
use std::alloc::Global;

/// Whether an instruction writes what objects hold.
fn writes(kind: &Kind) -> bool
    ensures yes { result ≡ true → Writes kind.now }
    ensures no { Writes kind.now → result ≡ true }
{
    match kind {
        Kind::Write { .. } | Kind::Grow { .. } => true,
        _ => false,
    }
}

/// Whether a call has arguments.
fn has_arguments(callee: &Callee, args: &[u32]) -> bool
    ensures yes { result ≡ true → 0 < length (arguments callee.now args.now) }
    ensures no { 0 < length (arguments callee.now args.now) → result ≡ true }
{
    match callee {
        Callee::Method(_, _) => true,
        _ => args.len() > 0,
    }
}

/// Whether an instruction reads what objects hold, or is a Call or Go with arguments.
fn reads(kind: &Kind) -> bool
    ensures yes { result ≡ true → Reads kind.now }
    ensures no { Reads kind.now → result ≡ true }
{
    match kind {
        Kind::Read { .. } | Kind::Grow { .. } => true,
        Kind::Call { callee, args, .. } => has_arguments(callee, args.as_slice()),
        Kind::Go { callee, args } => has_arguments(callee, args.as_slice()),
        _ => false,
    }
}

/// For each place whether it writes memory.
pub(crate) fn writes_of(alloc: Global, program: &Program) -> Result<Vec<bool>, Memory>
    ensures count { IfOk result (λ v. length v.items ≡ length program.now.instrs) }
    ensures exact { IfOk result (λ v. (m : ℕ) → IsSet v.items m ↔ WritesMemory program.now m) }
{
    let mut flags = Vec::new(alloc);
    for k in 0..program.len() {
        flags.push(writes(program.kind(k)))?;
    }
    Ok(flags)
}

/// For each place whether its instruction reads memory.
fn reads_at(alloc: Global, program: &Program) -> Result<Vec<bool>, Memory>
    ensures count { IfOk result (λ v. length v.items ≡ length program.now.instrs) }
    ensures well { IfOk result (λ v. WellFormed program.now) }
    ensures exact { IfOk result (λ v. (m : ℕ) → IsSet v.items m ↔ StandsAt program.now Reads m) }
{
    let mut flags = Vec::new(alloc);
    for k in 0..program.len() {
        flags.push(reads(program.kind(k)))?;
    }
    Ok(flags)
}

/// Sets the flag of the exit of the function h, where a Defer stands at the place.
fn mark_exit(program: &Program, flags: &mut Vec<bool>, h: u32, place: u32)
    requires function { h < length program.now.functions }
    requires place { place < length program.now.instrs }
    requires count { length flags.old.items ≡ length program.now.instrs }
    requires well { WellFormed program.now }
    ensures { GainsFlags (DefersAt program.now h place) flags.old.items flags.new.items }
{
    let own = program.function(h as usize);
    match program.kind(place as usize) {
        Kind::Defer { .. } => mark(flags, own.exit as usize),
        _ => {}
    }
}

/// Sets the flag of the exit of the function h, where it has a Defer.
fn mark_exit_of(program: &Program, flags: &mut Vec<bool>, h: u32)
    requires function { h < length program.now.functions }
    requires count { length flags.old.items ≡ length program.now.instrs }
    requires well { WellFormed program.now }
    ensures { GainsFlags (DefersIn program.now h) flags.old.items flags.new.items }
{
    let own = program.function(h as usize);
    for place in own.entry..own.leave + 1 {
        mark_exit(program, flags, h, place);
    }
}

/// Sets the flags of the exits of functions with a Defer.
fn mark_exits(program: &Program, flags: &mut Vec<bool>)
    requires count { length flags.old.items ≡ length program.now.instrs }
    ensures { GainsFlags (λ m. (h : ℕ) × DefersIn program.now h m) flags.old.items flags.new.items }
{
    for h in 0..program.function_count() {
        mark_exit_of(program, flags, h as u32);
    }
}

/// For each place whether it reads memory. A deferred call reads at its function's exit.
pub(crate) fn reads_of(alloc: Global, program: &Program) -> Result<Vec<bool>, Memory>
    ensures count { IfOk result (λ v. length v.items ≡ length program.now.instrs) }
    ensures exact { IfOk result (λ v. (m : ℕ) → IsSet v.items m ↔ ReadsMemory program.now m) }
{
    let mut flags = reads_at(alloc, program)?;
    mark_exits(program, &mut flags);
    Ok(flags)
}
