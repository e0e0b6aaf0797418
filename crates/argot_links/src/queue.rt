// A first-in first-out queue, threaded through the numbers that it holds.
ghost use Rattle.std.specs.Prelude.{◌≡◌, ℕ, ◌+◌, ◌<◌, ◌≤◌, ◌↔◌, ◌++◌, ◌∷◌, [], length, not, true, false, ◌⊎◌, IsNone, IfSome, IfOk, option_to_list, if◌then◌else◌};
ghost use Rattle.argot_links.specs.Waiting.{Waiting};
ghost use Rattle.argot_links.specs.Members.{has, AreDistinct, AreBelow};

use argot_text::Memory;
use std::alloc::Global;
use std::marker::Model;

/// A list of distinct numbers below a size, with room for all of them.
#[derive(Drop)]
pub struct Queue {
    // 0 for a number that doesn't wait, else one more than the number behind it, or than itself at the end
    links: Vec<u32>,
    first: u32,
    last: u32,
    count: u32,
}

impl Model for Queue {
    ghost use Rattle.std.specs.Prelude.{length};
    ghost use Rattle.argot_links.specs.Waiting.{Waiting};
    ghost use Rattle.argot_links.specs.Threaded.{thread, IsThreaded};

    ghost Value = { Waiting };

    ghost view = { λ a. record { size = length a.links.items; items = thread a.count a.links.items a.first } };

    ghost invariant = { λ a. IsThreaded a.links.items a.first a.last a.count };
}

impl Queue {
    /// No number, with room for all numbers below n.
    pub fn new(alloc: Global, n: u32) -> Result<Queue, Memory>
        ensures size { IfOk result (λ q. q.size ≡ n) }
        ensures empty { IfOk result (λ q. q.items ≡ []) }
    {
        let links = vec![in alloc; 0u32; n as usize]?;
        Ok(Queue {
            links,
            first: 0,
            last: 0,
            count: 0,
        })
    }

    /// Puts i last; false exactly where i waits already. No memory.
    pub fn put(&mut self, i: u32) -> bool
        requires { i < self.old.size }
        ensures fresh { result ≡ not (has self.old.items i) }
        ensures items { self.new.items ≡ (if result then self.old.items ++ i ∷ [] else self.old.items) }
        ensures size { self.new.size ≡ self.old.size }

        // what a client reads by `has`
        ensures there { has self.new.items i ≡ true }
        ensures kept { (j : ℕ) → has self.old.items j ≡ true → has self.new.items j ≡ true }
        ensures only { (j : ℕ) → has self.new.items j ≡ true → (has self.old.items j ≡ true) ⊎ (j ≡ i) }
        ensures longer { length self.new.items ≤ length self.old.items + 1 }
        ensures fits { length self.new.items ≤ self.new.size }
    {
        if self.links[i as usize] != 0 {
            return false;
        }
        if self.count == 0 {
            self.links[i as usize] = i + 1;
            self.first = i;
            self.last = i;
            self.count = 1;
            return true;
        }
        self.links[self.last as usize] = i + 1;
        self.links[i as usize] = i + 1;
        self.last = i;
        self.count += 1;
        true
    }

    /// Takes the first number out; None exactly where there is none. No memory.
    pub fn take(&mut self) -> Option<u32>
        ensures items { self.old.items ≡ option_to_list result ++ self.new.items }
        ensures none { IsNone result ↔ (self.old.items ≡ []) }
        ensures size { self.new.size ≡ self.old.size }
        ensures below { IfSome result (λ i. i < self.old.size) }

        // what a client reads by `has`
        ensures others { IfSome result (λ i. (j : ℕ) → has self.old.items j ≡ true → (j ≡ i) ⊎ (has self.new.items j ≡ true)) }
        ensures first { IfSome result (λ i. has self.old.items i ≡ true) }
        ensures rest { (j : ℕ) → has self.new.items j ≡ true → has self.old.items j ≡ true }
        ensures gone { IfSome result (λ i. has self.new.items i ≡ false) }
        ensures empty { IsNone result → (j : ℕ) → has self.old.items j ≡ false }
        ensures shorter { IfSome result (λ _. length self.new.items + 1 ≡ length self.old.items) }
        ensures fits { length self.old.items ≤ self.old.size }
    {
        if self.count == 0 {
            return None;
        }
        let i = self.first;
        self.first = self.links[i as usize] - 1;
        self.links[i as usize] = 0;
        self.count -= 1;
        Some(i)
    }
}
