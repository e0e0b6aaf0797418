// A table of bits in packed words.
ghost use Rattle.std.specs.Prelude.{◌≡◌, ℕ, ◌+◌, ◌^◌, ◌<◌, ◌≤◌, not, IsTrue, IsNone, IfSome, IfOk, true, false};
ghost use Rattle.argot_links.specs.Pairs.{AddsPair, JoinsRow};
ghost use Rattle.argot_links.specs.Grid.{Grid, bit, zeros, SameSize, IsWithin};

use crate::words::{clear_words, first_in_run, or_words, test_bit, with_bit};
use argot_text::Memory;
use std::alloc::Global;
use std::marker::Model;

/// For each row a bit for each column.
#[derive(Drop)]
pub struct Bits {
    words: Vec<u64>,
    rows: u32,
    cols: u32,
    stride: usize,
}

impl Model for Bits {
    ghost use Rattle.argot_links.specs.Grid.{Grid, IsLaidOut};

    ghost Value = { Grid };

    ghost view = { λ a. record { rows = a.rows; cols = a.cols; stride = a.stride; words = a.words.items } };

    ghost invariant = { λ a. IsLaidOut (record { rows = a.rows; cols = a.cols; stride = a.stride; words = a.words.items }) };
}

impl Bits {
    /// No bit.
    pub fn new(alloc: Global, rows: u32, cols: u32) -> Result<Bits, Memory>
        ensures rows { IfOk result (λ g. g.rows ≡ rows) }
        ensures cols { IfOk result (λ g. g.cols ≡ cols) }
        ensures empty { IfOk result (λ g. (a b : ℕ) → bit g a b ≡ false) }
        ensures within { IfOk result IsWithin }
    {
        let stride = (cols as usize + 63) / 64;
        let words = vec![in alloc; 0u64; rows as usize * stride]?;
        Ok(Bits {
            words,
            rows,
            cols,
            stride,
        })
    }

    /// The number of columns.
    pub fn cols(&self) -> u32
        ensures { result ≡ self.now.cols }
    {
        self.cols
    }

    /// Whether row r has column c.
    pub fn has(&self, r: u32, c: u32) -> bool
        requires row { r < self.now.rows }
        requires column { c < self.now.cols }
        ensures { result ≡ bit self.now r c }
    {
        test_bit(
            self.words[r as usize * self.stride + (c / 64) as usize],
            c % 64,
        )
    }

    /// Adds column c to row r. False exactly where it was there.
    pub fn add(&mut self, r: u32, c: u32) -> bool
        requires row { r < self.old.rows }
        requires column { c < self.old.cols }
        ensures adds { AddsPair (bit self.old) (bit self.new) r c }
        ensures size { SameSize self.old self.new }
        ensures within { IsWithin self.new }
        ensures fresh { result ≡ not (bit self.old r c) }
        ensures same { result ≡ false → self.new ≡ self.old }
        ensures zeros { IsTrue result → zeros self.new < zeros self.old }
    {
        let at = r as usize * self.stride + (c / 64) as usize;
        let word = self.words[at];
        if test_bit(word, c % 64) {
            return false;
        }
        self.words[at] = with_bit(word, c % 64);
        true
    }

    /// Adds all of row `source` to row `target`. True exactly where that changed.
    pub fn join(&mut self, source: u32, target: u32) -> bool
        requires source { source < self.old.rows }
        requires target { target < self.old.rows }
        ensures joins { JoinsRow (bit self.old) (bit self.new) source target }
        ensures size { SameSize self.old self.new }
        ensures within { IsWithin self.new }
        ensures same { result ≡ false → self.new ≡ self.old }
        ensures zeros { IsTrue result → zeros self.new < zeros self.old }
    {
        let n = self.stride;
        let words = self.words.as_mut_slice();
        or_words(words, source as usize * n, target as usize * n, n)
    }

    /// Takes every column out of every row.
    pub fn clear(&mut self)
        ensures size { SameSize self.old self.new }
        ensures empty { (a b : ℕ) → bit self.new a b ≡ false }
        ensures within { IsWithin self.new }
    {
        clear_words(self.words.as_mut_slice());
    }

    /// The first column of row r from `from` on.
    pub fn next_from(&self, r: u32, from: u32) -> Option<u32>
        requires row { r < self.now.rows }
        ensures found { IfSome result (λ c. (from ≤ c) × (bit self.now r c ≡ true)) }
        ensures column { IfSome result (λ c. c < self.now.cols) }
        ensures small { IfSome result (λ c. c + 1 < 2 ^ 32) }
        ensures first { IfSome result (λ c. (b : ℕ) → from ≤ b → b < c → bit self.now r b ≡ false) }
        ensures none { IsNone result → (b : ℕ) → from ≤ b → bit self.now r b ≡ false }
    {
        let start = r as usize * self.stride;
        let words = self.words.as_slice();
        match first_in_run(words, start, self.stride, from as usize) {
            Some(c) => Some(c as u32),
            None => None,
        }
    }
}
