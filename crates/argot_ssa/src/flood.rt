// Marking what is reached along edges, by a worklist over the queue.
ghost use Rattle.std.specs.Prelude.{◌≡◌, ℕ, ◌+◌, ◌*◌, ◌<◌, ◌≤◌, ◌⊎◌, [], length, true, false};
ghost use Rattle.argot_links.specs.Members.{has};
ghost use Rattle.argot_links.specs.Table.{room};
ghost use Rattle.argot_ssa.specs.Edges.{leads, IsSet, holds, Spreads};

use argot_links::{Chains, Queue, Rows};

/// Marks b, which then waits, if it passes the filter and isn't marked yet.
fn mark(filter: &Rows, marks: &mut Rows, queue: &mut Queue, b: u32)
    requires below { b < marks.old.cols }
    requires filter { IsSet marks.old.cols filter.now }
    requires marks { IsSet marks.old.cols marks.old }
    requires queue { queue.old.size ≡ marks.old.cols }
    ensures marks { IsSet marks.old.cols marks.new }
    ensures queue { queue.new.size ≡ marks.old.cols }
    ensures there { holds filter.now b ≡ true → holds marks.new b ≡ true }
    ensures kept { (a : ℕ) → holds marks.old a ≡ true → holds marks.new a ≡ true }
    ensures only { (a : ℕ) → holds marks.new a ≡ true → (holds marks.old a ≡ true) ⊎ (a ≡ b) }
    ensures waiting { (a : ℕ) → has queue.old.items a ≡ true → has queue.new.items a ≡ true }
    ensures fresh { (a : ℕ) → holds marks.new a ≡ true → (holds marks.old a ≡ true) ⊎ (has queue.new.items a ≡ true) }
    ensures marked { (a : ℕ) → has queue.new.items a ≡ true → (has queue.old.items a ≡ true) ⊎ (holds marks.new a ≡ true) }
    ensures work { 2 * room marks.new + length queue.new.items ≤ 2 * room marks.old + length queue.old.items }
{
    if filter.has(0, b) && marks.add(0, b) {
        queue.put(b);
    }
}

/// Marks all that an edge leads to from `from` and that passes the filter.
pub fn expand(edges: &Chains, filter: &Rows, marks: &mut Rows, queue: &mut Queue, from: u32)
    requires from { from < length edges.now.lists }
    requires below { (a b : ℕ) → leads edges.now.lists a b ≡ true → b < marks.old.cols }
    requires filter { IsSet marks.old.cols filter.now }
    requires marks { IsSet marks.old.cols marks.old }
    requires queue { queue.old.size ≡ marks.old.cols }
    ensures marks { IsSet marks.old.cols marks.new }
    ensures queue { queue.new.size ≡ marks.old.cols }
    ensures there { (b : ℕ) → leads edges.now.lists from b ≡ true → holds filter.now b ≡ true → holds marks.new b ≡ true }
    ensures kept { (a : ℕ) → holds marks.old a ≡ true → holds marks.new a ≡ true }
    ensures only { (a : ℕ) → holds marks.new a ≡ true → (holds marks.old a ≡ true) ⊎ (leads edges.now.lists from a ≡ true) }
    ensures waiting { (a : ℕ) → has queue.old.items a ≡ true → has queue.new.items a ≡ true }
    ensures fresh { (a : ℕ) → holds marks.new a ≡ true → (holds marks.old a ≡ true) ⊎ (has queue.new.items a ≡ true) }
    ensures marked { (a : ℕ) → has queue.new.items a ≡ true → (has queue.old.items a ≡ true) ⊎ (holds marks.new a ≡ true) }
    ensures work { 2 * room marks.new + length queue.new.items ≤ 2 * room marks.old + length queue.old.items }
{
    for b in edges.walk(from) {
        mark(filter, marks, queue, b);
    }
}

/// Marks all that is reached from what waits, along edges from what doesn't stop.
pub fn flood(edges: &Chains, stops: &Rows, filter: &Rows, marks: &mut Rows, queue: &mut Queue)
    requires count { length edges.now.lists ≡ marks.old.cols }
    requires below { (a b : ℕ) → leads edges.now.lists a b ≡ true → b < marks.old.cols }
    requires stops { IsSet marks.old.cols stops.now }
    requires filter { IsSet marks.old.cols filter.now }
    requires marks { IsSet marks.old.cols marks.old }
    requires queue { queue.old.size ≡ marks.old.cols }
    requires waits { (a : ℕ) → holds marks.old a ≡ true → has queue.old.items a ≡ true }
    requires marked { (a : ℕ) → has queue.old.items a ≡ true → holds marks.old a ≡ true }
    ensures marks { IsSet marks.old.cols marks.new }
    ensures queue { queue.new.size ≡ marks.old.cols }
    ensures empty { queue.new.items ≡ [] }
    ensures kept { (a : ℕ) → holds marks.old a ≡ true → holds marks.new a ≡ true }
    ensures closed { (a b : ℕ) → holds marks.new a ≡ true → holds stops.now a ≡ false → leads edges.now.lists a b ≡ true → holds filter.now b ≡ true → holds marks.new b ≡ true }
    ensures sound { (a : ℕ) → holds marks.new a ≡ true → Spreads edges.now.lists (holds stops.now) (holds marks.old) a }
{
    while let Some(a) = queue.take() {
        if !stops.has(0, a) {
            expand(edges, filter, marks, queue, a);
        }
    }
}
