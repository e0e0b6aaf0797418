// Definitions that are the last ones of their blocks, found in the order of the places from the last one back.
ghost use Rattle.std.specs.Prelude.{◌≡◌, ℕ, ◌+◌, ◌-◌, ◌<◌, ◌≤◌, ◌⊎◌, length, slice_index, true, false, OnOk, IfOk};
ghost use Rattle.argot_plain.specs.WellFormed.{WellFormed};
ghost use Rattle.argot_ssa.specs.Edges.{leads};
ghost use Rattle.argot_ssa.specs.Places.{size, IsOneOf, defines_at, IsOut, IsCut};
ghost use Rattle.argot_ssa.specs.Paths.{IsNext, AllNext, AreOuts};

use crate::asks::{count_registers, set_all};
use crate::cut::count_places;
use crate::growing::link;
use crate::registers::list_defined;
use argot_links::Chains;
use argot_plain::{Function, Program};
use argot_text::Memory;
use std::alloc::Global;

/// Whether the definition of register r at the place number k is the last one of its block. Behind the next definition, if
/// there is one, is the place number `after`.
fn is_last(
    program: &Program,
    function: &Function,
    heads: &[u32],
    k: u32,
    r: u32,
    after: u32,
) -> bool
    requires cut { IsCut program.now function.now heads.now }
    requires place { k < size function.now }
    requires next { IsNext (size function.now) (defines_at program.now function.now r) (k + 1) after }
    requires defines { defines_at program.now function.now r k ≡ true }
    ensures last { result ≡ true → IsOut heads.now (size function.now) (defines_at program.now function.now r) k }
    ensures not_last { result ≡ false → IsOut heads.now (size function.now) (defines_at program.now function.now r) k → ⊥ }
{
    if after == 0 {
        return true;
    }
    heads[after as usize - 1] != heads[k as usize]
}

/// The definition of register r at the place number k.
fn define_one(
    program: &Program,
    function: &Function,
    heads: &[u32],
    k: u32,
    r: u32,
    next: &[u32],
    outs: &mut Chains,
) -> Result<(), Memory>
    requires cut { IsCut program.now function.now heads.now }
    requires place { k < size function.now }
    requires register { r < length next.now }
    requires heads { length outs.old.lists ≡ length next.now }
    requires next { AllNext program.now function.now (k + 1) next.now }
    requires defines { defines_at program.now function.now r k ≡ true }
    ensures heads { length outs.new.lists ≡ length next.now }
    ensures kept { OnOk result ((a b : ℕ) → leads outs.old.lists a b ≡ true → leads outs.new.lists a b ≡ true) }
    ensures only { OnOk result ((a b : ℕ) → leads outs.new.lists a b ≡ true → (leads outs.old.lists a b ≡ true) ⊎ ((a ≡ r) × (b ≡ k) × IsOut heads.now (size function.now) (defines_at program.now function.now r) k)) }
    ensures there { OnOk result (IsOut heads.now (size function.now) (defines_at program.now function.now r) k → leads outs.new.lists r k ≡ true) }
{
    if !is_last(program, function, heads, k, r, next[r as usize]) {
        return Ok(());
    }
    link(outs, r, k)?;
    Ok(())
}

/// The definitions of these registers at the place number k.
fn define_all(
    program: &Program,
    function: &Function,
    heads: &[u32],
    k: u32,
    registers: &[u32],
    next: &[u32],
    outs: &mut Chains,
) -> Result<(), Memory>
    requires cut { IsCut program.now function.now heads.now }
    requires place { k < size function.now }
    requires each { (j : ℕ) → j < length registers.now → defines_at program.now function.now (slice_index registers.now j) k ≡ true }
    requires range { (j : ℕ) → j < length registers.now → slice_index registers.now j < length next.now }
    requires heads { length outs.old.lists ≡ length next.now }
    requires next { AllNext program.now function.now (k + 1) next.now }
    ensures heads { length outs.new.lists ≡ length next.now }
    ensures kept { OnOk result ((a b : ℕ) → leads outs.old.lists a b ≡ true → leads outs.new.lists a b ≡ true) }
    ensures only { OnOk result ((a b : ℕ) → leads outs.new.lists a b ≡ true → (leads outs.old.lists a b ≡ true) ⊎ ((b ≡ k) × IsOut heads.now (size function.now) (defines_at program.now function.now a) k)) }
    ensures there { OnOk result ((j : ℕ) → j < length registers.now → IsOut heads.now (size function.now) (defines_at program.now function.now (slice_index registers.now j)) k → leads outs.new.lists (slice_index registers.now j) k ≡ true) }
{
    for r in registers {
        define_one(program, function, heads, k, *r, next, outs)?;
    }
    Ok(())
}

/// One place, when those behind it are done.
fn visit_back(
    program: &Program,
    function: &Function,
    heads: &[u32],
    k: u32,
    registers: &mut Vec<u32>,
    next: &mut [u32],
    outs: &mut Chains,
) -> Result<(), Memory>
    requires well { WellFormed program.now }
    requires function { IsOneOf program.now function.now }
    requires cut { IsCut program.now function.now heads.now }
    requires place { k < size function.now }
    requires count { length next.old ≡ length function.now.registers }
    requires heads { length outs.old.lists ≡ length next.old }
    requires next { AllNext program.now function.now (k + 1) next.old }
    requires outs { AreOuts program.now function.now heads.now (k + 1) outs.old.lists }
    ensures heads { length outs.new.lists ≡ length next.old }
    ensures next { OnOk result (AllNext program.now function.now k next.new) }
    ensures outs { OnOk result (AreOuts program.now function.now heads.now k outs.new.lists) }
{
    list_defined(program, function, k, registers)?;
    define_all(
        program,
        function,
        heads,
        k,
        registers.as_slice(),
        next,
        outs,
    )?;
    set_all(registers.as_slice(), k + 1, next);
    Ok(())
}

/// The places, one after the other, from the last one back.
fn visit_all_back(
    program: &Program,
    function: &Function,
    heads: &[u32],
    registers: &mut Vec<u32>,
    next: &mut [u32],
    outs: &mut Chains,
) -> Result<(), Memory>
    requires well { WellFormed program.now }
    requires function { IsOneOf program.now function.now }
    requires cut { IsCut program.now function.now heads.now }
    requires count { length next.old ≡ length function.now.registers }
    requires heads { length outs.old.lists ≡ length next.old }
    requires next { AllNext program.now function.now (size function.now) next.old }
    requires outs { AreOuts program.now function.now heads.now (size function.now) outs.old.lists }
    ensures heads { length outs.new.lists ≡ length next.old }
    ensures outs { OnOk result (AreOuts program.now function.now heads.now 0 outs.new.lists) }
{
    let count = count_places(program, function);
    for done in 0..count {
        visit_back(
            program,
            function,
            heads,
            count - 1 - done,
            registers,
            next,
            outs,
        )?;
    }
    Ok(())
}

/// The definitions that are the last ones of their blocks, by register.
pub fn find_outs(
    alloc: Global,
    program: &Program,
    function: &Function,
    heads: &[u32],
) -> Result<Chains, Memory>
    requires well { WellFormed program.now }
    requires function { IsOneOf program.now function.now }
    requires cut { IsCut program.now function.now heads.now }
    ensures heads { IfOk result (λ outs. length outs.lists ≡ length function.now.registers) }
    ensures outs { IfOk result (λ outs. AreOuts program.now function.now heads.now 0 outs.lists) }
{
    let count = count_registers(function)?;
    let mut outs = Chains::new(alloc, count)?;
    let mut next = vec![in alloc; 0u32; count as usize]?;
    let mut registers = Vec::new(alloc);
    visit_all_back(
        program,
        function,
        heads,
        &mut registers,
        next.as_mut_slice(),
        &mut outs,
    )?;
    Ok(outs)
}
