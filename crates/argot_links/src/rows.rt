// For each row an ascending list of columns, over a table of bits.
ghost use Rattle.std.specs.Prelude.{◌≡◌, ℕ, ◌+◌, ◌-◌, ◌^◌, ◌<◌, ◌≤◌, [], length, not, IsTrue, IsNone, IfSome, IfOk, true, false};
ghost use Rattle.std.specs.Iterator.{YieldsFirst, item_count};
ghost use Rattle.argot_links.specs.Members.{IsAscending};
ghost use Rattle.argot_links.specs.Pairs.{AddsPair, JoinsRow};
ghost use Rattle.argot_links.specs.Table.{Table, row, has, room, SameShape, AreAscending};

use crate::bits::Bits;
use argot_text::Memory;
use std::alloc::Global;
use std::marker::Model;

/// For each row an ascending list of columns, with room for every column.
#[derive(Drop)]
pub struct Rows {
    bits: Bits,
}

impl Model for Rows {
    ghost use Rattle.argot_links.specs.Table.{Table, table_of};
    ghost use Rattle.argot_links.specs.Grid.{IsWithin};

    ghost Value = { Table };

    ghost view = { λ a. table_of a.bits };

    ghost invariant = { λ a. IsWithin a.bits };
}

impl Rows {
    /// No column in any row.
    pub fn new(alloc: Global, rows: u32, cols: u32) -> Result<Rows, Memory>
        ensures rows { IfOk result (λ t. length t.rows ≡ rows) }
        ensures cols { IfOk result (λ t. t.cols ≡ cols) }
        ensures empty { IfOk result (λ t. (a b : ℕ) → has t a b ≡ false) }
        ensures none { IfOk result (λ t. (a : ℕ) → row t a ≡ []) }
    {
        let bits = Bits::new(alloc, rows, cols)?;
        Ok(Rows { bits })
    }

    /// The number of columns. No memory.
    pub fn cols(&self) -> u32
        ensures { result ≡ self.now.cols }
    {
        self.bits.cols()
    }

    /// Whether row r has column c. No memory.
    pub fn has(&self, r: u32, c: u32) -> bool
        requires row { r < length self.now.rows }
        requires column { c < self.now.cols }
        ensures { result ≡ has self.now r c }
    {
        self.bits.has(r, c)
    }

    /// Adds column c to row r; false exactly where it was there. No memory.
    pub fn add(&mut self, r: u32, c: u32) -> bool
        requires row { r < length self.old.rows }
        requires column { c < self.old.cols }
        ensures adds { AddsPair (has self.old) (has self.new) r c }
        ensures ascending { AreAscending self.new }
        ensures shape { SameShape self.old self.new }
        ensures fresh { result ≡ not (has self.old r c) }
        ensures same { result ≡ false → self.new ≡ self.old }
        ensures room { IsTrue result → room self.new < room self.old }
    {
        self.bits.add(r, c)
    }

    /// Adds all of row `source` to row `target`; true exactly where `target` changed. No memory.
    pub fn join(&mut self, source: u32, target: u32) -> bool
        requires source { source < length self.old.rows }
        requires target { target < length self.old.rows }
        ensures joins { JoinsRow (has self.old) (has self.new) source target }
        ensures ascending { AreAscending self.new }
        ensures shape { SameShape self.old self.new }
        ensures same { result ≡ false → self.new ≡ self.old }
        ensures room { IsTrue result → room self.new < room self.old }
    {
        self.bits.join(source, target)
    }

    /// Takes every column out of every row. No memory.
    pub fn clear(&mut self)
        ensures shape { SameShape self.old self.new }
        ensures empty { (a b : ℕ) → has self.new a b ≡ false }
        ensures none { (a : ℕ) → row self.new a ≡ [] }
    {
        self.bits.clear();
    }

    /// The first column of row r from `from` on. A client that changes the rows in between goes over a row by
    /// this call, as a walk can't live beside a change. No memory.
    pub fn next_from(&self, r: u32, from: u32) -> Option<u32>
        requires row { r < length self.now.rows }
        ensures found { IfSome result (λ c. (from ≤ c) × (c < self.now.cols) × (has self.now r c ≡ true)) }
        ensures small { IfSome result (λ c. c + 1 < 2 ^ 32) }
        ensures first { IfSome result (λ c. (b : ℕ) → from ≤ b → b < c → has self.now r b ≡ false) }
        ensures none { IsNone result → (b : ℕ) → from ≤ b → has self.now r b ≡ false }
    {
        let c = self.bits.next_from(r, from)?;
        Some(c)
    }

    /// Goes over row r, whose columns ascend. No memory.
    pub fn walk(&self, r: u32) -> RowWalk<'_>
        requires { r < length self.now.rows }
        ensures all { result ≡ row self.now r }
        ensures ascending { IsAscending (row self.now r) }
    {
        let _ = &self.bits;
        RowWalk {
            table: self,
            row: r,
            at: 0,
        }
    }
}

/// Goes over one row; contracts see it as what is left of that row.
#[derive(Drop)]
pub struct RowWalk<'a> {
    table: &'a Rows,
    row: u32,
    at: u32,
}

impl<'a> Model for RowWalk<'a> {
    ghost use Rattle.std.specs.Prelude.{ℕ, ◌-◌, ◌<◌, List, length};
    ghost use Rattle.argot_links.specs.Table.{columns, has};

    ghost Value = { List ℕ };

    ghost view = { λ w. columns (has w.table.now w.row) w.at (w.table.now.cols - w.at) };

    ghost invariant = { λ w. w.row < length w.table.now.rows };
}

impl<'a> Iterator for RowWalk<'a> {
    type Item = u32;

    ghost next_gives = { YieldsFirst (λ w. w) };

    ghost remaining = { item_count (λ w. w) };

    fn next(&mut self) -> Option<u32> {
        match self.table.next_from(self.row, self.at) {
            Some(c) => {
                self.at = c + 1;
                Some(c)
            }
            None => None,
        }
    }
}
