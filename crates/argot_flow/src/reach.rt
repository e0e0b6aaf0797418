// What realizable lists reach from a node.
ghost use Rattle.std.specs.Prelude.{◌≡◌, ℕ, ◌<◌, length, IfOk, IfSome, IsNone, None, Some};
ghost use Rattle.argot_facts.specs.Summed.{AreSummaries};
ghost use Rattle.argot_flow.specs.Reaching.{IsRank, NotReached};
ghost use Rattle.argot_flow.specs.Searching.{IsMarked};

use crate::overs::overs_of;
use crate::search::{Lists, Search, rank, run};
use argot_facts::{Graph, Summaries};
use argot_summary::net::net_of;
use argot_text::Memory;
use std::alloc::Global;
use std::marker::Model;

/// Searches a graph from one node after another, with the memory for it.
#[derive(Drop)]
pub struct Reach<'a> {
    lists: Lists<'a>,
    search: Search,
    started: bool,
}

impl<'a> Model for Reach<'a> {
    ghost use Rattle.argot_flow.specs.Reaching.{Reached, seen, IsReady};

    ghost Value = { Reached };

    ghost view = { λ v. seen v.lists v.search v.started };

    ghost invariant = { λ v. IsReady v.lists v.search v.started };
}

/// No visit, with room for all.
fn no_search(alloc: Global, nodes: u32) -> Result<Search, Memory>
    ensures marked { IfOk result (λ v. IsMarked v) }
    ensures nodes { IfOk result (λ v. v.nodes ≡ nodes) }
{
    let visits = Vec::with_capacity(alloc, nodes as usize + nodes as usize)?;
    let ranks = vec![in alloc; 0u32; nodes as usize + nodes as usize]?;
    Ok(Search {
        from: 0,
        nodes,
        visits,
        ranks,
    })
}

impl<'a> Reach<'a> {
    /// Takes all memory, for a graph and its summaries. Nothing is reached yet.
    pub fn new(alloc: Global, graph: &'a Graph, summaries: &Summaries) -> Result<Reach<'a>, Memory>
        requires { AreSummaries graph.now.edges summaries.now }
        ensures edges { IfOk result (λ v. v.edges ≡ graph.now.edges) }
        ensures nodes { IfOk result (λ v. v.nodes ≡ length graph.now.nodes) }
        ensures nothing { IfOk result (λ v. v.start ≡ None) }
    {
        let edges = graph.edges();
        let Ok(nodes) = u32::try_from(graph.nodes().len()) else {
            return Err(Memory);
        };
        if edges.len() >= 4294967295 || nodes >= 2147483646 {
            return Err(Memory);
        }
        let net = net_of(alloc, edges.as_slice(), nodes)?;
        let overs = overs_of(alloc, &net, summaries.as_slice())?;
        let search = no_search(alloc, nodes)?;
        Ok(Reach {
            lists: Lists { net, overs },
            search,
            started: false,
        })
    }

    /// Finds what realizable lists reach from a node, anew. No memory.
    pub fn run(&mut self, from: u32)
        requires { from < self.old.nodes }
        ensures edges { self.new.edges ≡ self.old.edges }
        ensures nodes { self.new.nodes ≡ self.old.nodes }
        ensures start { self.new.start ≡ Some from }
    {
        run(&self.lists, &mut self.search, from);
        self.started = true;
    }

    /// The lesser of the ranks of the node in the two ways. None exactly where no realizable list joins the start of
    /// the last run to the node, and before the first run. No memory.
    pub fn rank(&self, node: u32) -> Option<u32>
        requires { node < self.now.nodes }
        ensures none { self.now.start ≡ None → result ≡ None }
        ensures some { IfSome result (λ r. IsRank self.now node r) }
        ensures nowhere { IsNone result → NotReached self.now node }
    {
        if !self.started {
            return None;
        }
        rank(&self.lists, &self.search, node)
    }
}
