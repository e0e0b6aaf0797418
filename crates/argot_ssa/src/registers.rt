// The registers that an instruction reads and defines.
ghost use Rattle.std.specs.Prelude.{◌≡◌, ℕ, ◌<◌, ◌++◌, ◌∷◌, [], ◌==◌, cond, map, length, slice_index, true, OnOk};
ghost use Rattle.argot_plain.specs.Code.{reads, defined, handed_values, parts_registers};
ghost use Rattle.argot_plain.specs.WellFormed.{WellFormed};
ghost use Rattle.argot_ssa.specs.Places.{size, IsOneOf, numbers, reads_at, defines_at};

use argot_plain::{Callee, Function, Kind, Program};
use argot_text::{Memory, Path};

fn push_all(from: &[u32], into: &mut Vec<u32>) -> Result<(), Memory>
    ensures { OnOk result (into.new.items ≡ into.old.items ++ from.now) }
{
    into.extend_from_slice(from)?;
    Ok(())
}

fn push_handed(callee: &Callee, args: &[u32], into: &mut Vec<u32>) -> Result<(), Memory>
    ensures { OnOk result (into.new.items ≡ into.old.items ++ handed_values callee.now args.now) }
{
    match callee {
        Callee::Static(_) => push_all(args, into),
        Callee::Value(r) => {
            push_all(args, into)?;
            into.push(*r)?;
            Ok(())
        }
        Callee::Method(r, _) => {
            into.push(*r)?;
            push_all(args, into)
        }
    }
}

fn push_parts(parts: &[(Path, u32)], into: &mut Vec<u32>) -> Result<(), Memory>
    ensures { OnOk result (into.new.items ≡ into.old.items ++ parts_registers parts.now) }
{
    for part in parts {
        into.push(part.1)?;
    }
    Ok(())
}

/// Adds the registers that an instruction of this kind reads.
pub fn push_reads(kind: &Kind, into: &mut Vec<u32>) -> Result<(), Memory>
    ensures { OnOk result (into.new.items ≡ into.old.items ++ reads kind.now) }
{
    match kind {
        Kind::Op { from, .. } | Kind::Leave { from } => push_all(from.as_slice(), into),
        Kind::Move { from, .. }
        | Kind::Step { from, .. }
        | Kind::Assert { from, .. }
        | Kind::Panic { from } => push_all(&[*from], into),
        Kind::Join { parts, .. } => push_parts(parts.as_slice(), into),
        Kind::Read { at, .. } => push_all(&[*at], into),
        Kind::Write { at, from } => push_all(&[*at, *from], into),
        Kind::Grow { at, items, .. } => {
            into.push(*at)?;
            push_all(items.as_slice(), into)
        }
        Kind::Call { callee, args, .. }
        | Kind::Go { callee, args }
        | Kind::Defer { callee, args } => { push_handed(callee, args.as_slice(), into) }
        Kind::Passed { to, .. } => push_all(&[*to], into),
        Kind::New { .. }
        | Kind::Global { .. }
        | Kind::RunDefers
        | Kind::Goto { .. }
        | Kind::Branch { .. } => Ok(()),
    }
}

/// Adds the registers that an instruction of this kind defines.
pub fn push_defined(kind: &Kind, into: &mut Vec<u32>) -> Result<(), Memory>
    ensures { OnOk result (into.new.items ≡ into.old.items ++ defined kind.now) }
{
    match kind {
        Kind::Op { to, .. }
        | Kind::Move { to, .. }
        | Kind::Join { to, .. }
        | Kind::New { to, .. }
        | Kind::Step { to, .. }
        | Kind::Read { to, .. }
        | Kind::Grow { to, .. }
        | Kind::Global { to, .. }
        | Kind::Assert { to, .. }
        | Kind::Passed { to, .. } => push_all(&[*to], into),
        Kind::Call { to, .. } => push_all(to.as_slice(), into),
        Kind::Write { .. }
        | Kind::Go { .. }
        | Kind::Defer { .. }
        | Kind::RunDefers
        | Kind::Leave { .. }
        | Kind::Goto { .. }
        | Kind::Branch { .. }
        | Kind::Panic { .. } => Ok(()),
    }
}

fn push_numbers(count: u32, into: &mut Vec<u32>) -> Result<(), Memory>
    ensures { OnOk result (into.new.items ≡ into.old.items ++ numbers count) }
{
    for r in 0..count {
        into.push(r)?;
    }
    Ok(())
}

/// Adds the parameters of the function, if the place number k is the first one.
fn push_params(function: &Function, k: u32, into: &mut Vec<u32>) -> Result<(), Memory>
    ensures { OnOk result (into.new.items ≡ into.old.items ++ cond (k == 0) (numbers function.now.params) []) }
{
    if k == 0 {
        return push_numbers(function.params, into);
    }
    Ok(())
}

/// Lists the registers that the place number k of the function reads.
pub fn list_reads(
    program: &Program,
    function: &Function,
    k: u32,
    into: &mut Vec<u32>,
) -> Result<(), Memory>
    requires well { WellFormed program.now }
    requires function { IsOneOf program.now function.now }
    requires place { k < size function.now }
    ensures each { OnOk result ((j : ℕ) → j < length into.new.items → reads_at program.now function.now (slice_index into.new.items j) k ≡ true) }
    ensures range { OnOk result ((j : ℕ) → j < length into.new.items → slice_index into.new.items j < length function.now.registers) }
    ensures all { OnOk result ((r : ℕ) → reads_at program.now function.now r k ≡ true → (j : ℕ) × (j < length into.new.items) × (slice_index into.new.items j ≡ r)) }
{
    into.clear();
    push_reads(program.kind((function.entry + k) as usize), into)?;
    Ok(())
}

/// Lists the registers that the place number k of the function defines.
pub fn list_defined(
    program: &Program,
    function: &Function,
    k: u32,
    into: &mut Vec<u32>,
) -> Result<(), Memory>
    requires well { WellFormed program.now }
    requires function { IsOneOf program.now function.now }
    requires place { k < size function.now }
    ensures each { OnOk result ((j : ℕ) → j < length into.new.items → defines_at program.now function.now (slice_index into.new.items j) k ≡ true) }
    ensures range { OnOk result ((j : ℕ) → j < length into.new.items → slice_index into.new.items j < length function.now.registers) }
    ensures all { OnOk result ((r : ℕ) → defines_at program.now function.now r k ≡ true → (j : ℕ) × (j < length into.new.items) × (slice_index into.new.items j ≡ r)) }
{
    into.clear();
    push_params(function, k, into)?;
    push_defined(program.kind((function.entry + k) as usize), into)?;
    Ok(())
}
