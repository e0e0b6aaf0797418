// The sets by which the values of one register are found.
ghost use Rattle.std.specs.Prelude.{◌≡◌, ℕ, ◌<◌, ◌⊎◌, [], length, slice_index, true, IfOk};
ghost use Rattle.argot_links.specs.Table.{Table};
ghost use Rattle.argot_ssa.specs.Edges.{leads, IsSet, holds};
ghost use Rattle.argot_ssa.specs.Working.{IsWork};

use argot_links::{Chains, Queue, Rows};
use argot_text::Memory;
use std::alloc::Global;

/// Sets of blocks, each known by its first place.
#[derive(Drop)]
pub struct Work {
    /// The blocks that define the register.
    pub stops: Rows,
    /// All of them.
    pub all: Rows,
    /// Those at the end or at the beginning of which the value is needed.
    pub needed: Rows,
    /// Those to which the definition that is carried now has come.
    pub seen: Rows,
    /// Those of a set that haven't been looked at yet.
    pub queue: Queue,
}

/// The set of all numbers below n.
fn full_set(alloc: Global, n: u32) -> Result<Rows, Memory>
    ensures set { IfOk result (λ t. IsSet n t) }
    ensures full { IfOk result (λ t. (a : ℕ) → a < n → holds t a ≡ true) }
{
    let mut all = Rows::new(alloc, 1, n)?;
    fill(&mut all, n);
    Ok(all)
}

fn fill(set: &mut Rows, n: u32)
    requires { IsSet n set.old }
    ensures set { IsSet n set.new }
    ensures full { (a : ℕ) → a < n → holds set.new a ≡ true }
{
    for a in 0..n {
        set.add(0, a);
    }
}

impl Work {
    /// Sets over the numbers below n.
    pub fn new(alloc: Global, n: u32) -> Result<Work, Memory>
        ensures { IfOk result (λ w. IsWork n w) }
    {
        let stops = Rows::new(alloc, 1, n)?;
        let all = full_set(alloc, n)?;
        let needed = Rows::new(alloc, 1, n)?;
        let seen = Rows::new(alloc, 1, n)?;
        let queue = Queue::new(alloc, n)?;
        Ok(Work {
            stops,
            all,
            needed,
            seen,
            queue,
        })
    }
}

/// Adds the block of each of these places to the set.
pub fn mark_blocks(places: &Chains, heads: &[u32], r: u32, set: &mut Rows)
    requires register { r < length places.now.lists }
    requires range { (k : ℕ) → leads places.now.lists r k ≡ true → k < length heads.now }
    requires heads { (k : ℕ) → k < length heads.now → slice_index heads.now k < set.old.cols }
    requires set { IsSet set.old.cols set.old }
    ensures set { IsSet set.old.cols set.new }
    ensures kept { (a : ℕ) → holds set.old a ≡ true → holds set.new a ≡ true }
    ensures there { (k : ℕ) → leads places.now.lists r k ≡ true → holds set.new (slice_index heads.now k) ≡ true }
    ensures only { (a : ℕ) → holds set.new a ≡ true → (holds set.old a ≡ true) ⊎ ((k : ℕ) × (leads places.now.lists r k ≡ true) × (slice_index heads.now k ≡ a)) }
{
    for k in places.walk(r) {
        set.add(0, heads[k as usize]);
    }
}
