// Blocks with their rows: the look-up of what comes behind what.
ghost use Rattle.std.specs.Prelude.{◌≡◌, ◌==◌, ◌&&◌, ◌<◌, ◌≤◌, ℕ, IfOk, nat_lt, length};
ghost use Rattle.argot_plain.specs.Lists.{In};
ghost use Rattle.argot_plain.specs.WellFormed.{WellFormed};
ghost use Rattle.argot_facts.specs.Handed.{FactsOf};
ghost use Rattle.argot_facts.specs.Pointing.{FitsPoints};
ghost use Rattle.argot_control.specs.Controlled.{behind, AreRowed, IsExactly};

use crate::numbers::blocks_of;
use crate::pairs::pairs_of;
use crate::rows::rows_of;
use crate::steps::steps_of;
use argot_facts::Points;
use argot_links::Rows;
use argot_plain::Program;
use argot_text::Memory;
use std::alloc::Global;

/// By place the number of its block, and for each block a row of those to which it leads.
#[derive(Drop)]
pub(crate) struct Blocks {
    pub numbers: Vec<u32>,
    pub rows: Rows,
}

/// A number above both.
fn above(count: u32, number: u32) -> u32
    requires { number < 4294967295 }
    ensures least { count ≤ result }
    ensures more { number < result }
{
    if number < count {
        return count;
    }
    number + 1
}

/// A number above all of these.
fn count_of(numbers: &[u32]) -> u32
    requires { (b : ℕ) → In b numbers.now → b < 4294967295 }
    ensures { (b : ℕ) → In b numbers.now → b < result }
{
    let mut count = 0;
    for k in 0..numbers.len() {
        count = above(count, numbers[k]);
    }
    count
}

/// Whether the place b stands behind a in one block.
fn is_before(x: u32, y: u32, a: u32, b: u32) -> bool
    ensures { result ≡ ((x == y) && nat_lt a b) }
{
    x == y && a < b
}

/// Whether the place b comes behind a.
pub(crate) fn comes_behind(numbers: &[u32], rows: &Rows, a: u32, b: u32) -> bool
    requires first { a < length numbers.now }
    requires second { b < length numbers.now }
    requires rowed { AreRowed numbers.now rows.now }
    ensures { result ≡ behind numbers.now rows.now a b }
{
    let x = numbers[a as usize];
    let y = numbers[b as usize];
    if is_before(x, y, a, b) {
        return true;
    }
    rows.has(x, y)
}

/// The blocks of a program with their rows.
pub(crate) fn lead(alloc: Global, program: &Program, points: &Points) -> Result<Blocks, Memory>
    requires { FitsPoints program.now points.now }
    ensures count { IfOk result (λ v. length v.numbers.items ≡ length program.now.instrs) }
    ensures well { IfOk result (λ v. WellFormed program.now) }
    ensures rowed { IfOk result (λ v. AreRowed v.numbers.items v.rows) }
    ensures exact { IfOk result (λ v. IsExactly program.now (FactsOf program.now points.now) v.numbers.items v.rows) }
{
    let pairs = pairs_of(alloc, program, points)?;
    let numbers = blocks_of(alloc, program, points)?;
    let steps = steps_of(alloc, &numbers, &pairs)?;
    let count = count_of(&numbers);
    let rows = rows_of(alloc, count, &steps)?;
    Ok(Blocks { numbers, rows })
}
