// The definitions that reach places, of the whole program.
ghost use Rattle.std.specs.Prelude.{◌≡◌, ℕ, map, length, OnOk, IfOk};
ghost use Rattle.argot_plain.specs.WellFormed.{WellFormed};
ghost use Rattle.argot_ssa.specs.Paths.{AddsRows};
ghost use Rattle.argot_ssa.specs.Form.{AreDefs, IsFoundIn, as_triple};

use crate::collect::collect;
use crate::order::put_in_order;
use argot_facts::Defs;
use argot_plain::Program;
use argot_text::{Memory, Sequence};
use std::alloc::Global;

/// Adds the rows of all functions.
fn collect_all(
    alloc: Global,
    program: &Program,
    rows: &mut Vec<(u32, u32, u32)>,
) -> Result<(), Memory>
    requires { WellFormed program.now }
    ensures { OnOk result (AddsRows rows.old.items rows.new.items (IsFoundIn program.now (length program.now.functions))) }
{
    for number in 0..program.function_count() {
        collect(alloc, program, program.function(number), rows)?;
    }
    Ok(())
}

/// Puts the definition first in each row.
fn turn_all(rows: &mut Vec<(u32, u32, u32)>)
    ensures { rows.new.items ≡ map as_triple rows.old.items }
{
    for row in rows.iter_mut() {
        *row = (row.2, row.0, row.1);
    }
}

/// The definitions that reach the places of the program: for every place and each register that it reads exactly these,
/// ordered by place, register and definition. Err is want of memory.
pub fn defs(alloc: Global, program: &Program) -> Result<Defs, Memory>
    ensures { IfOk result (AreDefs program.now) }
{
    let _ = program.len();
    let mut rows = Vec::new(alloc);
    collect_all(alloc, program, &mut rows)?;
    put_in_order(&mut rows)?;
    turn_all(&mut rows);
    Ok(Sequence::from_vec(rows))
}
