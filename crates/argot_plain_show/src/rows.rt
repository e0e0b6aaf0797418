// How many joins change a row, where the first row of a table is filled and each row is joined to the next so many times.
ghost use Rattle.std.specs.Prelude.{◌≡◌, length, IfOk};
ghost use Rattle.argot_links.specs.Table.{SameShape};

use argot_links::Rows;
use argot_text::{Memory, Out};
use std::alloc::Global;

// A table whose first row has every third column.
fn filled(alloc: Global, rows: u32, cols: u32) -> Result<Rows, Memory>
    ensures { IfOk result (λ t. length t.rows ≡ rows) }
{
    let mut table = Rows::new(alloc, rows, cols)?;
    if rows > 0 {
        for c in 0..cols {
            if c % 3 == 0 {
                table.add(0, c);
            }
        }
    }
    Ok(table)
}

// Joins each row to the next; how many joins changed a row.
fn join_all(table: &mut Rows, rows: u32) -> u64
    requires { length table.old.rows ≡ rows }
    ensures { SameShape table.old table.new }
{
    let mut changed = 0u64;
    for r in 1..rows {
        if table.join(r - 1, r) {
            changed = changed.saturating_add(1);
        }
    }
    changed
}

fn joined(alloc: Global, rows: u32, cols: u32, rounds: u32) -> Result<u64, Memory> {
    let mut table = filled(alloc, rows, cols)?;
    let mut changed = 0u64;
    for _ in 0..rounds {
        changed = changed.saturating_add(join_all(&mut table, rows));
    }
    Ok(changed)
}

fn numbers_of(alloc: Global, words: &[String]) -> Result<Vec<u32>, Memory> {
    let mut numbers = Vec::new(alloc);
    for word in words {
        if let Ok(number) = word.as_str().parse::<u32>() {
            numbers.push(number)?;
        }
    }
    Ok(numbers)
}

/// Adds what is printed for so many rows, columns and rounds.
pub fn push_joins(alloc: Global, out: &mut Out, words: &[String]) -> Result<(), Memory> {
    let numbers = numbers_of(alloc, words)?;
    match numbers.as_slice() {
        [rows, cols, rounds] => {
            out.push_number(joined(alloc, *rows, *cols, *rounds)?)?;
            out.push_str(" joins changed a row\n")
        }
        _ => out.push_str("three numbers are wanted\n"),
    }
}
