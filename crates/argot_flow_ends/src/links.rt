// Flows from sources to ends that are reached.
ghost use Rattle.std.specs.Prelude.{◌≡◌, ◌<◌, ℕ, OnOk, Some, length};
ghost use Rattle.argot_plain.specs.Lists.{In};
ghost use Rattle.argot_flow_ends.specs.Linking.{AddsLink, AddsLinks, AddsAllLinks};
ghost use Rattle.argot_flow_ends.specs.declared.lists.End.{End as EndValue};

use crate::lists::End;
use argot_facts::{Flow, Graph};
use argot_flow::Reach;
use argot_text::Memory;

/// A graph, the number of its problem, and the ends of flows.
#[derive(Drop)]
pub(crate) struct Links<'a> {
    pub graph: &'a Graph,
    pub problem: u32,
    pub ends: &'a [End],
}

/// Adds the flow from the start of the last run to an end, where it is reached.
fn add(
    links: &Links<'_>,
    reach: &Reach<'_>,
    source: u32,
    end: End,
    flows: &mut Vec<Flow>,
) -> Result<(), Memory>
    requires edges { reach.now.edges ≡ links.now.graph.now.edges }
    requires nodes { reach.now.nodes ≡ length links.now.graph.now.nodes }
    requires start { reach.now.start ≡ Some source }
    requires source { source < length links.now.graph.now.nodes }
    requires end { end.node < length links.now.graph.now.nodes }
    ensures { OnOk result (AddsLink links.now source end flows.old.items flows.new.items) }
{
    let Some(_rank) = reach.rank(end.node) else {
        return Ok(());
    };
    let nodes = links.graph.nodes();
    flows.push(Flow {
        problem: links.problem,
        source: nodes[source as usize].place,
        sink: nodes[end.node as usize].place,
        arg: end.arg,
    })?;
    Ok(())
}

/// Adds the flows from the start of the last run.
fn add_from(
    links: &Links<'_>,
    reach: &Reach<'_>,
    source: u32,
    flows: &mut Vec<Flow>,
) -> Result<(), Memory>
    requires edges { reach.now.edges ≡ links.now.graph.now.edges }
    requires nodes { reach.now.nodes ≡ length links.now.graph.now.nodes }
    requires start { reach.now.start ≡ Some source }
    requires source { source < length links.now.graph.now.nodes }
    requires ends { (e : EndValue) → In e links.now.ends.now → e.node < length links.now.graph.now.nodes }
    ensures { OnOk result (AddsLinks links.now source flows.old.items flows.new.items) }
{
    for k in 0..links.ends.len() {
        add(links, reach, source, links.ends[k], flows)?;
    }
    Ok(())
}

/// Adds the flows from each of these nodes.
pub(crate) fn add_all(
    links: &Links<'_>,
    reach: &mut Reach<'_>,
    sources: &[u32],
    flows: &mut Vec<Flow>,
) -> Result<(), Memory>
    requires edges { reach.old.edges ≡ links.now.graph.now.edges }
    requires nodes { reach.old.nodes ≡ length links.now.graph.now.nodes }
    requires sources { (s : ℕ) → In s sources.now → s < length links.now.graph.now.nodes }
    requires ends { (e : EndValue) → In e links.now.ends.now → e.node < length links.now.graph.now.nodes }
    ensures { OnOk result (AddsAllLinks links.now sources.now flows.old.items flows.new.items) }
{
    for k in 0..sources.len() {
        reach.run(sources[k]);
        add_from(links, reach, sources[k], flows)?;
    }
    Ok(())
}
