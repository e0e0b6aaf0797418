// Reads, in the order of the places: a read finds the definition before it in its block, or asks for the value at the
// first place of the block.
ghost use Rattle.std.specs.Prelude.{◌≡◌, ℕ, ◌+◌, ◌-◌, ◌<◌, ◌≤◌, ◌⊎◌, ◌^◌, length, slice_index, true, OnOk, IfOk};
ghost use Rattle.argot_plain.specs.Lists.{In};
ghost use Rattle.argot_plain.specs.WellFormed.{WellFormed};
ghost use Rattle.argot_ssa.specs.Edges.{leads};
ghost use Rattle.argot_ssa.specs.Places.{size, IsOneOf, reads_at, defines_at, IsLocal, IsExposed, IsCut};
ghost use Rattle.argot_ssa.specs.Paths.{IsLatest, AllLatest, IsLocalRow, AreAsks, AddsRows, IsLocalUpTo};

use crate::cut::count_places;
use crate::growing::link;
use crate::registers::{list_defined, list_reads};
use argot_links::Chains;
use argot_plain::{Function, Program};
use argot_text::Memory;
use std::alloc::Global;

/// Writes the value for each of these registers.
pub fn set_all(registers: &[u32], value: u32, values: &mut [u32])
    requires { (j : ℕ) → j < length registers.now → slice_index registers.now j < length values.old }
    ensures set { (j : ℕ) → j < length registers.now → slice_index values.new (slice_index registers.now j) ≡ value }
    ensures others { (r : ℕ) → (slice_index values.new r ≡ slice_index values.old r) ⊎ ((j : ℕ) × (j < length registers.now) × (slice_index registers.now j ≡ r)) }
{
    for r in registers {
        values[*r as usize] = value;
    }
}

/// The read of register r at the place number k.
fn read_one(
    program: &Program,
    function: &Function,
    heads: &[u32],
    k: u32,
    r: u32,
    latest: &[u32],
    asks: &mut Chains,
    rows: &mut Vec<(u32, u32, u32)>,
) -> Result<(), Memory>
    requires limit { function.now.entry + k < 2 ^ 32 }
    requires cut { IsCut program.now function.now heads.now }
    requires place { k < size function.now }
    requires register { r < length latest.now }
    requires heads { length asks.old.lists ≡ length latest.now }
    requires latest { AllLatest program.now function.now k latest.now }
    requires read { reads_at program.now function.now r k ≡ true }
    ensures heads { length asks.new.lists ≡ length latest.now }
    ensures asks_kept { OnOk result ((a b : ℕ) → leads asks.old.lists a b ≡ true → leads asks.new.lists a b ≡ true) }
    ensures asks_only { OnOk result ((a b : ℕ) → leads asks.new.lists a b ≡ true → (leads asks.old.lists a b ≡ true) ⊎ ((a ≡ r) × (b ≡ k) × IsExposed heads.now (defines_at program.now function.now r) k)) }
    ensures asks_there { OnOk result (IsExposed heads.now (defines_at program.now function.now r) k → leads asks.new.lists r k ≡ true) }
    ensures rows_kept { OnOk result ((x : ℕ × ℕ × ℕ) → In x rows.old.items → In x rows.new.items) }
    ensures rows_only { OnOk result ((x : ℕ × ℕ × ℕ) → In x rows.new.items → In x rows.old.items ⊎ IsLocalRow program.now function.now heads.now k x) }
    ensures rows_there { OnOk result ((d : ℕ) → IsLocal heads.now (defines_at program.now function.now r) d k → In (function.now.entry + k, r, function.now.entry + d) rows.new.items) }
{
    let last = latest[r as usize];
    if last <= heads[k as usize] {
        return link(asks, r, k);
    }
    rows.push((function.entry + k, r, function.entry + (last - 1)))?;
    Ok(())
}

/// The reads of these registers at the place number k.
fn read_all(
    program: &Program,
    function: &Function,
    heads: &[u32],
    k: u32,
    registers: &[u32],
    latest: &[u32],
    asks: &mut Chains,
    rows: &mut Vec<(u32, u32, u32)>,
) -> Result<(), Memory>
    requires limit { function.now.entry + k < 2 ^ 32 }
    requires cut { IsCut program.now function.now heads.now }
    requires place { k < size function.now }
    requires each { (j : ℕ) → j < length registers.now → reads_at program.now function.now (slice_index registers.now j) k ≡ true }
    requires range { (j : ℕ) → j < length registers.now → slice_index registers.now j < length latest.now }
    requires heads { length asks.old.lists ≡ length latest.now }
    requires latest { AllLatest program.now function.now k latest.now }
    ensures heads { length asks.new.lists ≡ length latest.now }
    ensures asks_kept { OnOk result ((a b : ℕ) → leads asks.old.lists a b ≡ true → leads asks.new.lists a b ≡ true) }
    ensures asks_only { OnOk result ((a b : ℕ) → leads asks.new.lists a b ≡ true → (leads asks.old.lists a b ≡ true) ⊎ ((b ≡ k) × (reads_at program.now function.now a k ≡ true) × IsExposed heads.now (defines_at program.now function.now a) k)) }
    ensures asks_there { OnOk result ((j : ℕ) → j < length registers.now → IsExposed heads.now (defines_at program.now function.now (slice_index registers.now j)) k → leads asks.new.lists (slice_index registers.now j) k ≡ true) }
    ensures rows_kept { OnOk result ((x : ℕ × ℕ × ℕ) → In x rows.old.items → In x rows.new.items) }
    ensures rows_only { OnOk result ((x : ℕ × ℕ × ℕ) → In x rows.new.items → In x rows.old.items ⊎ IsLocalRow program.now function.now heads.now k x) }
    ensures rows_there { OnOk result ((j : ℕ) → j < length registers.now → (d : ℕ) → IsLocal heads.now (defines_at program.now function.now (slice_index registers.now j)) d k → In (function.now.entry + k, slice_index registers.now j, function.now.entry + d) rows.new.items) }
{
    for r in registers {
        read_one(program, function, heads, k, *r, latest, asks, rows)?;
    }
    Ok(())
}

/// One place: its reads, and then what it defines.
fn visit(
    program: &Program,
    function: &Function,
    heads: &[u32],
    k: u32,
    registers: &mut Vec<u32>,
    latest: &mut [u32],
    asks: &mut Chains,
    rows: &mut Vec<(u32, u32, u32)>,
) -> Result<(), Memory>
    requires well { WellFormed program.now }
    requires function { IsOneOf program.now function.now }
    requires cut { IsCut program.now function.now heads.now }
    requires place { k < size function.now }
    requires count { length latest.old ≡ length function.now.registers }
    requires heads { length asks.old.lists ≡ length latest.old }
    requires latest { AllLatest program.now function.now k latest.old }
    requires asks { AreAsks program.now function.now heads.now k asks.old.lists }
    ensures heads { length asks.new.lists ≡ length latest.old }
    ensures latest { OnOk result (AllLatest program.now function.now (k + 1) latest.new) }
    ensures asks { OnOk result (AreAsks program.now function.now heads.now (k + 1) asks.new.lists) }
    ensures rows { OnOk result (AddsRows rows.old.items rows.new.items (IsLocalRow program.now function.now heads.now k)) }
{
    list_reads(program, function, k, registers)?;
    read_all(
        program,
        function,
        heads,
        k,
        registers.as_slice(),
        latest,
        asks,
        rows,
    )?;
    list_defined(program, function, k, registers)?;
    set_all(registers.as_slice(), k + 1, latest);
    Ok(())
}

/// All reads of the function: adds the rows of those that find their definition in their block, and answers the places of
/// the others, by register.
pub fn find_asks(
    alloc: Global,
    program: &Program,
    function: &Function,
    heads: &[u32],
    rows: &mut Vec<(u32, u32, u32)>,
) -> Result<Chains, Memory>
    requires well { WellFormed program.now }
    requires function { IsOneOf program.now function.now }
    requires cut { IsCut program.now function.now heads.now }
    ensures heads { IfOk result (λ asks. length asks.lists ≡ length function.now.registers) }
    ensures asks { IfOk result (λ asks. AreAsks program.now function.now heads.now (size function.now) asks.lists) }
    ensures rows { OnOk result (AddsRows rows.old.items rows.new.items (IsLocalUpTo program.now function.now heads.now (size function.now))) }
{
    let count = count_registers(function)?;
    let mut asks = Chains::new(alloc, count)?;
    let mut latest = vec![in alloc; 0u32; count as usize]?;
    let mut registers = Vec::new(alloc);
    visit_all(
        program,
        function,
        heads,
        &mut registers,
        latest.as_mut_slice(),
        &mut asks,
        rows,
    )?;
    Ok(asks)
}

/// How many registers the function has; they are numbered.
pub fn count_registers(function: &Function) -> Result<u32, Memory>
    ensures { IfOk result (λ n. n ≡ length function.now.registers) }
{
    match u32::try_from(function.registers.len()) {
        Ok(count) => Ok(count),
        Err(_) => Err(Memory),
    }
}

/// The places, one after the other.
fn visit_all(
    program: &Program,
    function: &Function,
    heads: &[u32],
    registers: &mut Vec<u32>,
    latest: &mut [u32],
    asks: &mut Chains,
    rows: &mut Vec<(u32, u32, u32)>,
) -> Result<(), Memory>
    requires well { WellFormed program.now }
    requires function { IsOneOf program.now function.now }
    requires cut { IsCut program.now function.now heads.now }
    requires count { length latest.old ≡ length function.now.registers }
    requires heads { length asks.old.lists ≡ length latest.old }
    requires latest { AllLatest program.now function.now 0 latest.old }
    requires asks { AreAsks program.now function.now heads.now 0 asks.old.lists }
    ensures heads { length asks.new.lists ≡ length latest.old }
    ensures asks { OnOk result (AreAsks program.now function.now heads.now (size function.now) asks.new.lists) }
    ensures rows { OnOk result (AddsRows rows.old.items rows.new.items (IsLocalUpTo program.now function.now heads.now (size function.now))) }
{
    for k in 0..count_places(program, function) {
        visit(program, function, heads, k, registers, latest, asks, rows)?;
    }
    Ok(())
}
