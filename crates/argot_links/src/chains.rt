// Lists whose items stand in one column of cells, linked by index.
ghost use Rattle.std.specs.Prelude.{◌≡◌, ℕ, ◌+◌, ◌<◌, ◌≤◌, ◌^◌, [], ◌∷◌, length, replicate, slice_set, slice_index_or, IfOk, OnOk, OnErr};
ghost use Rattle.argot_links.specs.Chained.{Chained};
ghost use Rattle.std.specs.Iterator.{YieldsFirst, item_count};

use argot_text::Memory;
use std::alloc::Global;
use std::marker::Model;

/// An item and the link to the next one: 0 at the end, else one more than its cell's index.
#[derive(Clone, Copy)]
pub struct Cell {
    item: u32,
    next: u32,
}

/// Lists of numbers, each begun by a head, with one allocation for the items of all.
#[derive(Drop)]
pub struct Chains {
    heads: Vec<u32>,
    cells: Vec<Cell>,
    spare: u32,
}

impl Model for Chains {
    ghost use Rattle.std.specs.Prelude.{vec_capacity, length};
    ghost use Rattle.argot_links.specs.Chained.{Chained};
    ghost use Rattle.argot_links.specs.Linked.{IsLinked, chains};

    ghost Value = { Chained };

    ghost view = { λ a. record { used = length a.cells.items; spare = a.spare; lists = chains a.cells.items a.heads.items } };

    ghost invariant = { λ a. IsLinked a.cells.items a.heads.items (vec_capacity a.cells) a.spare };
}

impl Chains {
    /// As many empty lists, with room for no item.
    pub fn new(alloc: Global, heads: u32) -> Result<Chains, Memory>
        ensures lists { IfOk result (λ c. c.lists ≡ replicate heads []) }
        ensures used { IfOk result (λ c. c.used ≡ 0) }
        ensures spare { IfOk result (λ c. c.spare ≡ 0) }
    {
        let heads = vec![in alloc; 0u32; heads as usize]?;
        Ok(Chains {
            heads,
            cells: Vec::new(alloc),
            spare: 0,
        })
    }

    /// How many items the lists have together. No memory.
    pub fn len(&self) -> u32
        ensures used { result ≡ self.now.used }
    {
        self.cells.len() as u32
    }

    /// Makes room for at least so many more items. After `Memory` nothing is changed.
    pub fn reserve(&mut self, more: u32) -> Result<(), Memory>
        requires { self.old.used + more < 2 ^ 32 }
        ensures lists { self.new.lists ≡ self.old.lists }
        ensures used { self.new.used ≡ self.old.used }
        ensures ok { OnOk result (more ≤ self.new.spare) }
        ensures err { OnErr result (self.new ≡ self.old) }
    {
        self.cells.reserve(more as usize)?;
        self.spare = self.spare.max(more);
        Ok(())
    }

    /// Makes the item the first of that list. No memory.
    pub fn push(&mut self, head: u32, item: u32)
        requires head { head < length self.old.lists }
        requires room { 0 < self.old.spare }
        ensures lists { self.new.lists ≡ slice_set self.old.lists head (item ∷ slice_index_or self.old.lists head []) }
        ensures spare { self.new.spare + 1 ≡ self.old.spare }
        ensures used { self.new.used ≡ self.old.used + 1 }
    {
        let at = head as usize;
        let next = self.heads[at];
        self.cells.push_reserved(Cell { item, next });
        self.heads[at] = self.cells.len() as u32;
        self.spare -= 1;
    }

    /// Goes over that list, in order. No memory.
    pub fn walk(&self, head: u32) -> ChainWalk<'_>
        requires { head < length self.now.lists }
        ensures { result ≡ slice_index_or self.now.lists head [] }
    {
        ChainWalk {
            cells: &self.cells,
            at: self.heads[head as usize],
        }
    }
}

/// Goes over one list; contracts see it as what is left of that list.
#[derive(Drop)]
pub struct ChainWalk<'a> {
    cells: &'a [Cell],
    at: u32,
}

impl<'a> Model for ChainWalk<'a> {
    ghost use Rattle.std.specs.Prelude.{ℕ, ◌≤◌, List, length};
    ghost use Rattle.argot_links.specs.Linked.{chain, IsDown};

    ghost Value = { List ℕ };

    ghost view = { λ w. chain w.at w.cells.now w.at };

    ghost invariant = { λ w. IsDown w.cells.now × (w.at ≤ length w.cells.now) };
}

impl<'a> Iterator for ChainWalk<'a> {
    type Item = u32;

    ghost next_gives = { YieldsFirst (λ w. w) };

    ghost remaining = { item_count (λ w. w) };

    fn next(&mut self) -> Option<u32> {
        if self.at == 0 {
            return None;
        }
        let cell = self.cells[self.at as usize - 1];
        self.at = cell.next;
        Some(cell.item)
    }
}

fn needs_sharing<T: Send + Sync>(_shared: &T) {}

/// Workers may share chains: the check of this function shows that `Chains` is `Send` and `Sync`.
pub fn may_be_shared(chains: &Chains) {
    needs_sharing(chains);
}
