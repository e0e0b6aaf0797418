// What the summaries of the worked graph are, and what is reached in it.
ghost use Rattle.std.specs.Prelude.{◌<◌};

use crate::graph_of_call;
use argot_facts::{Edge, EdgeKind, Same};
use argot_flow::Reach;
use argot_graph::turn;
use argot_summary::summarise;
use std::test::Fail;

// Whether the fact of this number leads from node 1 to that node.
fn is_fact(facts: &[Same], number: usize, to: u32, rank: u32) -> bool {
    if number >= facts.len() {
        return false;
    }
    let fact = facts[number];
    fact.from == 1 && fact.to == to && fact.rank == rank
}

// Whether nodes 0, 2 and 3 have these ranks.
fn has_ranks(reach: &Reach, first: Option<u32>, third: Option<u32>, last: Option<u32>) -> bool
    requires { 3 < reach.now.nodes }
{
    reach.rank(0) == first && reach.rank(2) == third && reach.rank(3) == last
}

#[test]
fn a_call_is_led_over(rt: HostRuntime) -> Result<(), Fail> {
    let graph = graph_of_call(rt.alloc())?;
    let summaries = summarise(rt.alloc(), &graph, 1)?;
    assert_eq!(rt; summaries.len(), 2);
    assert!(rt; is_fact(summaries.as_slice(), 0, 1, 0));
    assert!(rt; is_fact(summaries.as_slice(), 1, 2, 1));
    let mut reach = Reach::new(rt.alloc(), &graph, &summaries)?;
    assert!(rt; has_ranks(&reach, None, None, None));
    reach.run(0);
    assert!(rt; has_ranks(&reach, Some(0), Some(2), Some(1)));
    reach.run(2);
    assert!(rt; has_ranks(&reach, None, Some(0), Some(1)));
    Ok(())
}

// Whether the edge of this number is that one.
fn is_edge(edges: &[Edge], number: usize, from: u32, to: u32, kind: EdgeKind) -> bool {
    number < edges.len() && edges[number] == Edge { from, to, kind }
}

// From the end of each edge to its start; what came back from the call now enters by it.
#[test]
fn a_call_is_turned_into_a_return(rt: HostRuntime) -> Result<(), Fail> {
    let graph = graph_of_call(rt.alloc())?;
    let turned = turn(&rt, rt.alloc(), &graph)?;
    let edges = turned.edges().as_slice();
    assert!(rt; turned.nodes().len() == 4);
    assert!(rt; edges.len() == 4);
    assert!(rt; is_edge(edges, 0, 1, 0, EdgeKind::Return(5)));
    assert!(rt; is_edge(edges, 1, 1, 3, EdgeKind::Return(6)));
    assert!(rt; is_edge(edges, 2, 2, 1, EdgeKind::Plain));
    assert!(rt; is_edge(edges, 3, 3, 2, EdgeKind::Call(5)));
    Ok(())
}
