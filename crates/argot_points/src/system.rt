// A program with its nodes and locations, known by their numbers, and the rules on them.
ghost use Rattle.std.specs.Prelude.{◌≡◌, ℕ, ◌<◌, ◌≤◌, ◌+◌, ◌++◌, [], Some, length, slice_get, IfSome, IsNone, IsTrue, true, false};
ghost use Rattle.argot_plain.specs.Lists.{same_path};
ghost use Rattle.argot_plain.specs.Machine.{is_of_type, has_pair};
ghost use Rattle.argot_facts.specs.Numbers.{location};
ghost use Rattle.argot_facts.specs.Graphs.{IsBefore};
ghost use Rattle.argot_facts.specs.declared.pointing.Loc.{Loc as Locs};
ghost use Rattle.argot_points.specs.Solved.{Fits};
ghost use Rattle.argot_points.specs.Meaning.{IsRow, IsColumn, IsMoved, IsKept, IsRoot};

use argot_facts::{Loc, Node};
use argot_links::{Queue, Rows};
use argot_plain::Program;
use argot_points_rules::{Owned, is_joined};
use argot_text::PathStep;

/// A program, the lists by which its nodes and locations are numbered, and its rules.
#[derive(Drop)]
pub(crate) struct System<'a> {
    pub program: &'a Program,
    pub nodes: Vec<Node>,
    pub locations: Vec<Loc>,
    pub rules: Vec<Owned>,
}

/// The relations as they are now.
#[derive(Drop)]
pub(crate) struct Tables {
    /// A row for each node and then for each location, a column for each location.
    pub refers: Rows,
    /// One row, a column for each function.
    pub live: Rows,
    /// The rows that grew and have to be looked at again, and behind them the functions that became live.
    pub grown: Queue,
}

/// Whether the first node stands before the second.
fn stands_before(a: Node, b: Node) -> bool
    ensures yes { IsTrue result → IsBefore a b }
    ensures no { IsBefore a b → IsTrue result }
{
    if a.place != b.place {
        return a.place < b.place;
    }
    if a.index != b.index {
        return a.index < b.index;
    }
    a.leaf < b.leaf
}

impl<'a> System<'a> {
    /// The rule of a number.
    pub fn rule(&self, k: usize) -> &Owned
        requires { k < length self.now.rules.items }
        ensures { slice_get self.now.rules.items k ≡ Some result.now }
    {
        &self.rules[k]
    }

    /// The number of a node.
    pub fn row(&self, node: Node) -> Option<u32>
        requires { Fits self.now }
        ensures found { IfSome result (λ n. IsRow self.now n node) }
        ensures only { IfSome result (λ n. (m : ℕ) → IsRow self.now m node → m ≡ n) }
        ensures none { IsNone result → (m : ℕ) → IsRow self.now m node → ⊥ }
    {
        let mut low = 0;
        let mut high = self.nodes.len();
        while low < high {
            let middle = low + (high - low) / 2;
            let here = self.nodes[middle];
            if stands_before(here, node) {
                low = middle + 1;
            } else if stands_before(node, here) {
                high = middle;
            } else {
                return Some(middle as u32);
            }
        }
        None
    }

    /// The location of a number.
    pub fn location(&self, n: usize) -> &Loc
        requires { n < length self.now.locations.items }
        ensures { IsColumn self.now n result.now }
    {
        &self.locations[n]
    }

    /// Whether the location of a number is that of the site at the path, which is two one behind the other.
    fn is_at(&self, n: usize, site: u32, front: &[PathStep], rest: &[PathStep]) -> bool
        requires { n < length self.now.locations.items }
        ensures yes { result ≡ true → IsColumn self.now n (location site (front.now ++ rest.now)) }
        ensures no { IsColumn self.now n (location site (front.now ++ rest.now)) → result ≡ true }
    {
        let here = self.location(n);
        here.site == site && is_joined(here.path.as_slice(), front, rest)
    }

    /// The number of the first location of the site or of one behind it, or of all locations.
    fn first_of(&self, site: u32) -> usize
        requires { Fits self.now }
        ensures inside { result ≤ length self.now.locations.items }
        ensures before { (m : ℕ) (l : Locs) → IsColumn self.now m l → m < result → l.site < site }
        ensures behind { (m : ℕ) (l : Locs) → IsColumn self.now m l → result ≤ m → site ≤ l.site }
    {
        let mut low = 0;
        let mut high = self.locations.len();
        while low < high {
            let middle = low + (high - low) / 2;
            if self.locations[middle].site < site {
                low = middle + 1;
            } else {
                high = middle;
            }
        }
        low
    }

    /// The number of the location of the site at a path, which is two paths one behind the other.
    fn column(&self, site: u32, front: &[PathStep], rest: &[PathStep]) -> Option<u32>
        requires { Fits self.now }
        ensures found { IfSome result (λ n. IsColumn self.now n (location site (front.now ++ rest.now))) }
        ensures only { IfSome result (λ n. (m : ℕ) → IsColumn self.now m (location site (front.now ++ rest.now)) → m ≡ n) }
        ensures none { IsNone result → (m : ℕ) → IsColumn self.now m (location site (front.now ++ rest.now)) → ⊥ }
    {
        for n in self.first_of(site)..self.locations.len() {
            let here = self.location(n);
            if here.site > site {
                return None;
            }
            if self.is_at(n, site, front, rest) {
                return Some(n as u32);
            }
        }
        None
    }

    /// The number of the location that stands for the objects of a site as a whole.
    pub fn root(&self, site: u32) -> Option<u32>
        requires { Fits self.now }
        ensures found { IfSome result (λ n. IsRoot self.now site n) }
        ensures only { IfSome result (λ n. (m : ℕ) → IsRoot self.now site m → m ≡ n) }
        ensures none { IsNone result → (m : ℕ) → IsRoot self.now site m → ⊥ }
    {
        self.column(site, &[], &[])
    }

    /// The number of a location moved along a path, where that is a location.
    pub fn moved(&self, y: u32, path: &[PathStep]) -> Option<u32>
        requires fits { Fits self.now }
        requires inside { y < length self.now.locations.items }
        ensures found { IfSome result (λ n. IsMoved self.now y path.now n) }
        ensures only { IfSome result (λ n. (m : ℕ) → IsMoved self.now y path.now m → m ≡ n) }
        ensures none { IsNone result → (m : ℕ) → IsMoved self.now y path.now m → ⊥ }
    {
        let here = self.location(y as usize);
        self.column(here.site, here.path.as_slice(), path)
    }

    /// Whether what a location is part of is or implements the type.
    pub fn is_kept(&self, y: u32, target: u32) -> bool
        requires fits { Fits self.now }
        requires inside { y < length self.now.locations.items }
        ensures yes { result ≡ true → IsKept self.now y target }
        ensures no { result ≡ false → IsKept self.now y target → ⊥ }
    {
        let site = self.location(y as usize).site;
        is_of_type(self.program, target, site)
    }
}

/// Whether the objects of the site are of the type or implement it.
fn is_of_type(program: &Program, target: u32, site: u32) -> bool
    ensures { result ≡ is_of_type program.now target (slice_get program.now.sites site) }
{
    if site as usize >= program.site_count() {
        return false;
    }
    has_pair(
        program.site(site as usize).dynamic,
        target,
        program.implements(),
    )
}

fn has_pair(a: u32, b: u32, pairs: &[(u32, u32)]) -> bool
    ensures { result ≡ has_pair a b pairs.now }
{
    for n in 0..pairs.len() {
        if a == pairs[n].0 && b == pairs[n].1 {
            return true;
        }
    }
    false
}
