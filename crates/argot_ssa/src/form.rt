// The form of one function: for each place and each register that it reads the definitions that reach.
ghost use Rattle.std.specs.Prelude.{◌≡◌, ℕ, ◌<◌, ◌≤◌, length, drop, slice_index_or, true, IfOk};
ghost use Rattle.std.specs.Iterator.{YieldsFirst, item_count};
ghost use Rattle.argot_ssa.specs.Form.{AreInOrder, definitions, run, stands_before, IsFormOf};

use crate::collect::collect;
use crate::order::put_in_order;
use argot_plain::Program;
use argot_text::Memory;
use std::alloc::Global;
use std::marker::Model;

/// A function in static single assignment, as far as it is asked: contracts see it as its rows, each a place, a register that
/// the place reads and a definition of it that reaches the place, in that order.
#[derive(Drop)]
pub struct Ssa {
    rows: Vec<(u32, u32, u32)>,
}

impl Model for Ssa {
    ghost use Rattle.std.specs.Prelude.{List};
    ghost use Rattle.argot_ssa.specs.Paths.{Row};
    ghost use Rattle.argot_ssa.specs.Form.{AreInOrder};

    ghost Value = { List Row };

    ghost view = { λ s. s.rows.items };

    ghost invariant = { λ s. AreInOrder s.rows.items };
}

/// The form of the function of this number. Err is want of memory.
pub fn build(alloc: Global, program: &Program, function: u32) -> Result<Ssa, Memory>
    requires { function < length program.now.functions }
    ensures { IfOk result (IsFormOf program.now function) }
{
    let _ = program.len();
    let of = program.function(function as usize);
    let mut rows = Vec::new(alloc);
    collect(alloc, program, of, &mut rows)?;
    put_in_order(&mut rows)?;
    Ok(Ssa { rows })
}

/// Whether the row stands before all rows of the place and the register.
fn is_before(row: (u32, u32, u32), place: u32, register: u32) -> bool
    ensures { result ≡ stands_before row place register }
{
    row.0 < place || (row.0 == place && row.1 < register)
}

/// The number of the first row that doesn't stand before those of the place and the register.
fn first_row(rows: &[(u32, u32, u32)], place: u32, register: u32) -> usize
    requires { AreInOrder rows.now }
    ensures { run (drop result rows.now) place register ≡ definitions rows.now place register }
{
    let mut low = 0;
    let mut high = rows.len();
    while low < high {
        let mid = low + (high - low) / 2;
        if is_before(rows[mid], place, register) {
            low = mid + 1;
        } else {
            high = mid;
        }
    }
    low
}

impl Ssa {
    /// The definitions of the register that reach the place, ascending. No memory.
    pub fn defs_of(&self, place: u32, register: u32) -> DefWalk<'_>
        ensures { result ≡ definitions self.now place register }
    {
        let rows = self.rows.as_slice();
        DefWalk {
            rows,
            at: first_row(rows, place, register),
            place,
            register,
        }
    }
}

/// Goes over the definitions of a register that reach a place; contracts see it as what is left of them.
#[derive(Drop)]
pub struct DefWalk<'a> {
    rows: &'a [(u32, u32, u32)],
    at: usize,
    place: u32,
    register: u32,
}

impl<'a> Model for DefWalk<'a> {
    ghost use Rattle.std.specs.Prelude.{ℕ, List, drop};
    ghost use Rattle.argot_ssa.specs.Form.{run};

    ghost Value = { List ℕ };

    ghost view = { λ w. run (drop w.at w.rows.now) w.place w.register };
}

impl<'a> Iterator for DefWalk<'a> {
    type Item = u32;

    ghost next_gives = { YieldsFirst (λ w. w) };

    ghost remaining = { item_count (λ w. w) };

    fn next(&mut self) -> Option<u32> {
        if self.at >= self.rows.len() {
            return None;
        }
        let row = self.rows[self.at];
        if row.0 != self.place || row.1 != self.register {
            return None;
        }
        self.at += 1;
        Some(row.2)
    }
}
