// A search by layers.
ghost use Rattle.std.specs.Prelude.{
  ◌≡◌,
  ℕ,
  ◌+◌,
  ◌≤◌,
  ◌<◌,
  ◌^◌,
  false,
  length,
  slice_get,
  Some,
  IfSome,
  IsNone,
  IsTrue,
  [],
  ◌∷◌,
  ◌++◌,
  slice_set,
};
ghost use Rattle.argot_facts.specs.declared.graphs.Edge.{Edge as Edges};
ghost use Rattle.argot_facts.specs.Lists.{Joins};
ghost use Rattle.argot_facts.specs.Reached.{IsEdgeIn, IsLesserRank};
ghost use Rattle.argot_flow.specs.Steps.{leads};
ghost use Rattle.argot_flow.specs.Searching.{
  place,
  AreLists,
  IsVisited,
  IsMarked,
  Keeps,
  IsWithin,
  IsState,
  Grows,
  IsSearched,
  rank_at,
  visit_of,
  AddsOnly,
  AreLow,
  AreOlder,
  VisitsEdge,
  VisitsEdges,
  VisitsOvers,
  VisitsSteps,
  VisitsRound,
};

use argot_facts::EdgeKind;
use argot_links::Chains;
use argot_summary::net::Net;

/// The edges of a graph, and what calls lead over.
#[derive(Drop)]
pub(crate) struct Lists<'a> {
    pub net: Net<'a>,
    pub overs: Chains,
}

/// A node that is reached: with a call open, or with none.
#[derive(Clone, Copy)]
pub(crate) struct Visit {
    pub node: u32,
    pub down: bool,
    pub rank: u32,
}

/// What has been reached from a node, in order, and the rank of each, plus 1, by way and node.
#[derive(Drop)]
pub(crate) struct Search {
    pub from: u32,
    pub nodes: u32,
    pub visits: Vec<Visit>,
    pub ranks: Vec<u32>,
}

/// The place of a node and way in the table of ranks.
fn place(down: bool, node: u32) -> usize
    ensures { result ≡ place down node }
{
    if down {
        return node as usize + node as usize + 1;
    }
    node as usize + node as usize
}

/// Whether the node has been visited this way.
fn is_marked(search: &Search, down: bool, node: u32) -> bool
    requires marked { IsMarked search.now }
    requires node { node < search.now.nodes }
    ensures yes { IsTrue result → 0 < rank_at search.now.ranks.items (place down node) }
    ensures no { result ≡ false → rank_at search.now.ranks.items (place down node) ≡ 0 }
{
    search.ranks[place(down, node)] != 0
}

/// Visits a node that hasn't been visited this way.
fn add(search: &mut Search, down: bool, node: u32, rank: u32)
    requires marked { IsMarked search.old }
    requires node { node < search.old.nodes }
    requires rank { rank + 1 < 2 ^ 32 }
    requires free { rank_at search.old.ranks.items (place down node) ≡ 0 }
    ensures marked { IsMarked search.new }
    ensures from { search.new.from ≡ search.old.from }
    ensures nodes { search.new.nodes ≡ search.old.nodes }
    ensures adds { search.new.visits.items ≡ search.old.visits.items ++ visit_of node down rank ∷ [] }
{
    let at = place(down, node);
    search.visits.push_reserved(Visit { node, down, rank });
    search.ranks[at] = rank + 1;
}

/// Visits a node, if it hasn't been visited this way.
fn mark(search: &mut Search, down: bool, node: u32, rank: u32)
    requires marked { IsMarked search.old }
    requires node { node < search.old.nodes }
    requires rank { rank + 1 < 2 ^ 32 }
    requires low { AreLow search.old.visits.items rank }
    ensures marked { IsMarked search.new }
    ensures from { search.new.from ≡ search.old.from }
    ensures nodes { search.new.nodes ≡ search.old.nodes }
    ensures keeps { Keeps search.old.visits.items search.new.visits.items }
    ensures only { AddsOnly search.old.visits.items search.new.visits.items (visit_of node down rank) }
    ensures there { IsVisited search.new.visits.items down node rank }
{
    if is_marked(search, down, node) {
        return;
    }
    add(search, down, node, rank);
}

/// Visits a node to which a rule leads.
fn put(lists: &Lists, search: &mut Search, down: bool, node: u32, rank: u32)
    requires state { IsState lists.now search.old rank }
    requires node { node < lists.now.net.nodes }
    requires rank { rank + 1 < 2 ^ 32 }
    requires rule { IsWithin lists.now search.old down rank node }
    ensures grows { Grows lists.now search.old search.new rank }
    ensures there { IsVisited search.new.visits.items down node rank }
{
    let _nodes = lists.net.nodes;
    mark(search, down, node, rank);
}

/// The way behind an edge of this kind.
fn way_behind(down: bool, kind: EdgeKind) -> Option<bool>
    ensures { result ≡ leads down kind }
{
    match kind {
        EdgeKind::Plain => Some(down),
        EdgeKind::Call(_) => Some(true),
        EdgeKind::Return(_) => {
            if down {
                return None;
            }
            Some(false)
        }
        EdgeKind::Reset => Some(false),
    }
}

/// Where the edge k leads from the visit.
fn follow_edge(lists: &Lists, search: &mut Search, visit: Visit, k: u32, rank: u32)
    requires lists { AreLists lists.now }
    requires state { IsState lists.now search.old rank }
    requires within { IsWithin lists.now search.old visit.down visit.rank visit.node }
    requires older { visit.rank < rank }
    requires rank { rank + 1 < 2 ^ 32 }
    requires k { k < length lists.now.net.edges.now }
    requires leads { (e : Edges) → slice_get lists.now.net.edges.now k ≡ Some e → e.from ≡ visit.node }
    ensures grows { Grows lists.now search.old search.new rank }
    ensures closed { VisitsEdge lists.now visit search.new.visits.items rank k }
{
    let edge = lists.net.edges[k as usize];
    match way_behind(visit.down, edge.kind) {
        Some(down) => put(lists, search, down, edge.to, rank),
        None => {}
    }
}

/// Where edges lead from the visit.
fn follow_edges(lists: &Lists, search: &mut Search, visit: Visit, rank: u32)
    requires lists { AreLists lists.now }
    requires state { IsState lists.now search.old rank }
    requires within { IsWithin lists.now search.old visit.down visit.rank visit.node }
    requires older { visit.rank < rank }
    requires node { visit.node < lists.now.net.nodes }
    requires rank { rank + 1 < 2 ^ 32 }
    ensures grows { Grows lists.now search.old search.new rank }
    ensures closed { VisitsEdges lists.now visit search.new.visits.items rank }
{
    let first = lists.net.starts[visit.node as usize];
    let end = lists.net.starts[visit.node as usize + 1];
    for k in first..end {
        follow_edge(lists, search, visit, k, rank);
    }
}

/// Where calls lead over from the visit.
fn follow_overs(lists: &Lists, search: &mut Search, visit: Visit, rank: u32)
    requires lists { AreLists lists.now }
    requires state { IsState lists.now search.old rank }
    requires within { IsWithin lists.now search.old visit.down visit.rank visit.node }
    requires older { visit.rank < rank }
    requires node { visit.node < lists.now.net.nodes }
    requires rank { rank + 1 < 2 ^ 32 }
    ensures grows { Grows lists.now search.old search.new rank }
    ensures closed { VisitsOvers lists.now visit search.new.visits.items rank }
{
    for n in lists.overs.walk(visit.node) {
        put(lists, search, visit.down, n, rank);
    }
}

/// Where the visit leads.
fn follow(lists: &Lists, search: &mut Search, visit: Visit, rank: u32)
    requires lists { AreLists lists.now }
    requires state { IsState lists.now search.old rank }
    requires within { IsWithin lists.now search.old visit.down visit.rank visit.node }
    requires older { visit.rank < rank }
    requires node { visit.node < lists.now.net.nodes }
    requires rank { rank + 1 < 2 ^ 32 }
    ensures grows { Grows lists.now search.old search.new rank }
    ensures closed { VisitsSteps lists.now visit search.new.visits.items rank }
{
    follow_edges(lists, search, visit, rank);
    follow_overs(lists, search, visit, rank);
}

/// Where the visits from this number on, and before the end, lead.
fn round(lists: &Lists, search: &mut Search, first: usize, end: usize, rank: u32)
    requires lists { AreLists lists.now }
    requires state { IsState lists.now search.old rank }
    requires end { end ≤ length search.old.visits.items }
    requires older { AreOlder search.old.visits.items end rank }
    requires rank { rank + 1 < 2 ^ 32 }
    ensures grows { Grows lists.now search.old search.new rank }
    ensures closed { VisitsRound lists.now first end search.new.visits.items rank }
{
    for i in first..end {
        let visit = search.visits[i];
        follow(lists, search, visit, rank);
    }
}

/// Takes the mark of a visit away.
fn unmark(search: &mut Search, visit: Visit)
    requires size { length search.old.ranks.items ≡ search.old.nodes + search.old.nodes }
    requires node { visit.node < search.old.nodes }
    ensures from { search.new.from ≡ search.old.from }
    ensures nodes { search.new.nodes ≡ search.old.nodes }
    ensures visits { search.new.visits ≡ search.old.visits }
    ensures ranks { search.new.ranks.items ≡ slice_set search.old.ranks.items (place visit.down visit.node) 0 }
{
    let at = place(visit.down, visit.node);
    search.ranks[at] = 0;
}

/// Forgets all visits, one by one.
fn clear(search: &mut Search)
    requires marked { IsMarked search.old }
    ensures marked { IsMarked search.new }
    ensures empty { search.new.visits.items ≡ [] }
    ensures nodes { search.new.nodes ≡ search.old.nodes }
{
    while let Some(visit) = search.visits.pop() {
        unmark(search, visit);
    }
}

/// Visits what is reached from a node, layer by layer. No memory.
pub(crate) fn run(lists: &Lists, search: &mut Search, from: u32)
    requires lists { AreLists lists.now }
    requires marked { IsMarked search.old }
    requires nodes { search.old.nodes ≡ lists.now.net.nodes }
    requires few { search.old.nodes + search.old.nodes + 2 < 2 ^ 32 }
    requires from { from < search.old.nodes }
    ensures searched { IsSearched lists.now search.new }
    ensures from { search.new.from ≡ from }
    ensures nodes { search.new.nodes ≡ search.old.nodes }
{
    clear(search);
    search.from = from;
    mark(search, false, from, 0);
    let mut first = 0;
    let mut rank = 1;
    while first < search.visits.len() {
        let end = search.visits.len();
        round(lists, search, first, end, rank);
        first = end;
        rank += 1;
    }
}

/// The rank of a node this way, plus 1, or 0.
fn rank_of(search: &Search, down: bool, node: u32) -> u32
    requires marked { IsMarked search.now }
    requires node { node < search.now.nodes }
    ensures { result ≡ rank_at search.now.ranks.items (place down node) }
{
    search.ranks[place(down, node)]
}

/// The lesser of the ranks of the node. None exactly where nothing joins the start to it. No memory.
pub(crate) fn rank(lists: &Lists, search: &Search, node: u32) -> Option<u32>
    requires searched { IsSearched lists.now search.now }
    requires node { node < search.now.nodes }
    ensures some { IfSome result (λ r. IsLesserRank (IsEdgeIn lists.now.net.edges.now) search.now.from node r) }
    ensures none { IsNone result → Joins (IsEdgeIn lists.now.net.edges.now) search.now.from node → ⊥ }
{
    let _nodes = lists.net.nodes;
    let up = rank_of(search, false, node);
    let down = rank_of(search, true, node);
    if up == 0 {
        if down == 0 {
            return None;
        }
        return Some(down - 1);
    }
    if down == 0 {
        return Some(up - 1);
    }
    if up <= down {
        return Some(up - 1);
    }
    Some(down - 1)
}
