// Which place that reads memory may come after which one that writes it.
ghost use Rattle.std.specs.Prelude.{◌≡◌, true};
ghost use Rattle.argot_plain.specs.Lists.{In};
ghost use Rattle.argot_control.specs.Controlled.{pairs_by, IsControl};

use crate::blocks::{Blocks, comes_behind};
use argot_facts::is_marked;
use std::marker::Model;

/// Control order: the pairs of a place that writes memory and one that reads it and may come after. A Call or Go with
/// arguments counts as reading, and so does the exit of a function with a Defer.
#[derive(Drop)]
pub struct Control {
    blocks: Blocks,
    writes: Vec<bool>,
    reads: Vec<bool>,
}

impl Model for Control {
    ghost use Rattle.std.specs.Prelude.{ℕ, List};
    ghost use Rattle.argot_control.specs.Controlled.{pairs_by, IsControl};

    ghost Value = { List (ℕ × ℕ) };

    ghost view = { λ c. pairs_by c.blocks.numbers.items c.blocks.rows c.writes.items c.reads.items };

    ghost invariant = { λ c. IsControl c.blocks.numbers.items c.blocks.rows c.writes.items c.reads.items };
}

impl Control {
    /// Control order of blocks, and of flags of the places that write and of those that read.
    pub(crate) fn of(blocks: Blocks, writes: Vec<bool>, reads: Vec<bool>) -> Control
        requires { IsControl blocks.numbers.items blocks.rows writes.items reads.items }
        ensures { result ≡ pairs_by blocks.numbers.items blocks.rows writes.items reads.items }
    {
        Control {
            blocks,
            writes,
            reads,
        }
    }

    /// Whether the place a writes memory, b reads it, and b may come after a. No memory.
    pub fn follows(&self, a: u32, b: u32) -> bool
        ensures yes { result ≡ true → In (a, b) self.now }
        ensures no { In (a, b) self.now → result ≡ true }
    {
        if !is_marked(&self.writes, a as usize) {
            return false;
        }
        if !is_marked(&self.reads, b as usize) {
            return false;
        }
        comes_behind(&self.blocks.numbers, &self.blocks.rows, a, b)
    }
}
