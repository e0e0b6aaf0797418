// Edges as they are found, in any order and some of them twice, as long as there aren't more than the limit.
ghost use Rattle.std.specs.Prelude.{◌≡◌, ◌<◌, OnOk, true, false};
ghost use Rattle.argot_facts.specs.declared.graphs.Edge.{Edge as EdgeValue};
ghost use Rattle.argot_graph_edges.specs.Adding.{Adds, IsKept};

use argot_facts::Edge;
use argot_graph::ordered_alone;
use argot_text::Memory;
use std::alloc::Global;

/// The greatest number of edges of a problem.
pub(crate) const MOST_EDGES: usize = 16_777_216;

/// How many may stand in a sketch, doubles counted, before it is thinned.
const MOST_FOUND: usize = 33_554_432;

/// Edges that are found. Where they are full there were more than the limit, and what is found from then on is passed over.
#[derive(Drop)]
pub(crate) struct Sketch {
    pub edges: Vec<Edge>,
    pub full: bool,
}

/// Drops what stands twice, and sees whether there are too many.
fn thin(alloc: Global, sketch: &mut Sketch) -> Result<(), Memory>
    requires { sketch.old.full ≡ false }
    ensures { OnOk result (IsKept sketch.old sketch.new) }
{
    let edges = ordered_alone(alloc, &mut sketch.edges)?;
    sketch.full = edges.len() > MOST_EDGES;
    sketch.edges = edges;
    Ok(())
}

/// Adds an edge.
pub(crate) fn add(alloc: Global, sketch: &mut Sketch, edge: Edge) -> Result<(), Memory>
    ensures { OnOk result (Adds (λ e. e ≡ edge) sketch.old sketch.new) }
{
    if sketch.full {
        return Ok(());
    }
    sketch.edges.push(edge)?;
    if sketch.edges.len() >= MOST_FOUND {
        thin(alloc, sketch)?;
    }
    Ok(())
}
