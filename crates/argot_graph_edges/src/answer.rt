// The flow edges of a program under a problem.
ghost use Rattle.std.specs.Prelude.{◌≡◌, ◌<◌, ◌≤◌, ℕ, List, length, IfOk, IfErr, OnOk, true, false};
ghost use Rattle.argot_plain.specs.Fitting.{Fits};
ghost use Rattle.argot_plain.specs.Lists.{In, IsDistinct};
ghost use Rattle.argot_plain.specs.WellFormed.{WellFormed};
ghost use Rattle.argot_facts.specs.Exact.{AreDefs, ArePoints, AreEscapingBy, AreFollowingBy, HasManyEdgesBy, most_edges};
ghost use Rattle.argot_facts.specs.Graphs.{EdgeBefore, IsGraphBy, IsGraphOf, IsOrdered};
ghost use Rattle.argot_facts.specs.Handed.{FactsOf};
ghost use Rattle.argot_facts.specs.Pointing.{FitsPoints};
ghost use Rattle.argot_facts.specs.Reaching.{DefinedAt};
ghost use Rattle.argot_points_rules.specs.Column.{rules_of};
ghost use Rattle.argot_graph_edges.specs.Accessing.{Written, Readable};
ghost use Rattle.argot_graph.specs.Order.{HaveSame};
ghost use Rattle.argot_graph_edges.specs.Adding.{Adds, AreMany};
ghost use Rattle.argot_graph_edges.specs.Whole.{IsEdgeOf, IsOrderOf, IsSketchOf, AreRuns, Drawn, Met};
ghost use Rattle.argot_graph_edges.specs.Tabled.{AreTables};
ghost use Rattle.argot_facts.specs.declared.graphs.Edge.{Edge as EdgeValue};
ghost use Rattle.argot_graph_edges.specs.declared.answer.GraphFault.TheVariants.{Edges};

use crate::accesses::{reads_of, writes_of};
use crate::arguments::{Writes, meet_functions};
use crate::drawing::Drawing;
use crate::meets::{Order, meet_all, runs_of};
use crate::moves::draw_rules;
use crate::ops::draw_ops;
use crate::outside::draw_externals;
use crate::sketch::{MOST_EDGES, Sketch};
use crate::tables::tables_of;
use argot_control::Control;
use argot_facts::{Defs, Edge, Graph, Node, Points};
use argot_graph::ordered;
use argot_links::Runs;
use argot_plain::{Problem, Program};
use argot_points_rules::{Owned, rules_of};
use argot_text::{Memory, Sequence};
use std::alloc::Global;
use std::thread::Threads;
use thiserror::Error;

/// Why there is no graph.
#[derive(Clone, Copy, Debug, PartialEq, Eq, Drop, Error)]
pub enum GraphFault {
    /// There are more than 16,777,216 edges.
    #[error("too many edges")]
    Edges,
    /// There was no memory left.
    #[error("out of memory")]
    Memory,
}

/// The definitions that reach places, and the rules of points-to that they give.
#[derive(Drop)]
struct Laid<'a> {
    rules: &'a [Owned],
    defs: &'a [(u32, u32, u32)],
}

/// Adds the edges along which data moves, is handed on and is handed back.
fn draw(
    drawing: &Drawing<'_>,
    sketch: &mut Sketch,
    rules: &[Owned],
    defs: &[(u32, u32, u32)],
) -> Result<(), Memory>
    requires fits { FitsPoints drawing.now.program.now drawing.now.points.now }
    requires tables { AreTables drawing.now.program.now drawing.now.problem.now drawing.now.tables.now }
    requires well { WellFormed drawing.now.program.now }
    ensures { OnOk result (Adds (Drawn drawing.now.program.now drawing.now.points.now drawing.now.problem.now rules.now defs.now) sketch.old sketch.new) }
{
    draw_rules(drawing, sketch, rules)?;
    draw_ops(drawing, sketch, defs)?;
    draw_externals(drawing, sketch)?;
    Ok(())
}

/// Adds the edges through objects.
fn meet(
    drawing: &Drawing<'_>,
    sketch: &mut Sketch,
    writes: &Writes<'_>,
    reads: &Runs,
) -> Result<(), Memory>
    requires fits { FitsPoints drawing.now.program.now drawing.now.points.now }
    requires tables { AreTables drawing.now.program.now drawing.now.problem.now drawing.now.tables.now }
    requires well { WellFormed drawing.now.program.now }
    requires writes { length writes.now.runs.now ≡ length drawing.now.points.now.locations }
    requires reads { length reads.now ≡ length drawing.now.points.now.locations }
    ensures { OnOk result (Adds (Met drawing.now.program.now drawing.now.points.now drawing.now.problem.now writes.now reads.now) sketch.old sketch.new) }
{
    meet_all(drawing, sketch, writes.order, writes.runs, reads)?;
    meet_functions(drawing, sketch, writes)?;
    Ok(())
}

/// Adds all edges.
fn fill(
    drawing: &Drawing<'_>,
    sketch: &mut Sketch,
    laid: &Laid<'_>,
    writes: &Writes<'_>,
    reads: &Runs,
) -> Result<(), Memory>
    requires fits { FitsPoints drawing.now.program.now drawing.now.points.now }
    requires tables { AreTables drawing.now.program.now drawing.now.problem.now drawing.now.tables.now }
    requires well { WellFormed drawing.now.program.now }
    requires defs { AreDefs drawing.now.program.now laid.now.defs.now }
    requires rules { laid.now.rules.now ≡ rules_of drawing.now.program.now laid.now.defs.now }
    requires order { IsOrderOf drawing.now.program.now drawing.now.points.now writes.now.order.now }
    requires writes { AreRuns (Written drawing.now.points.now laid.now.rules.now) (length drawing.now.points.now.locations) writes.now.runs.now }
    requires reads { AreRuns (Readable drawing.now.points.now laid.now.rules.now) (length drawing.now.points.now.locations) reads.now }
    ensures { OnOk result (Adds (IsEdgeOf drawing.now.program.now drawing.now.points.now drawing.now.problem.now) sketch.old sketch.new) }
{
    draw(drawing, sketch, laid.rules, laid.defs)?;
    meet(drawing, sketch, writes, reads)?;
    Ok(())
}

/// Which nodes write each location, and which read it.
fn accesses(alloc: Global, points: &Points, rules: &[Owned]) -> Result<(Runs, Runs), Memory>
    requires { IsDistinct points.now.locations }
    ensures writes { IfOk result (λ r. AreRuns (Written points.now rules.now) (length points.now.locations) r.0) }
    ensures reads { IfOk result (λ r. AreRuns (Readable points.now rules.now) (length points.now.locations) r.1) }
{
    let Ok(count) = u32::try_from(points.location_count()) else {
        return Err(Memory);
    };
    let writes = writes_of(alloc, points, rules)?;
    let reads = reads_of(alloc, points, rules)?;
    let writes = runs_of(alloc, count, &writes)?;
    let reads = runs_of(alloc, count, &reads)?;
    Ok((writes, reads))
}

/// All edges, in any order.
fn sketched(
    drawing: &Drawing<'_>,
    defs: &[(u32, u32, u32)],
    order: &Order<'_>,
) -> Result<Sketch, Memory>
    requires fits { FitsPoints drawing.now.program.now drawing.now.points.now }
    requires tables { AreTables drawing.now.program.now drawing.now.problem.now drawing.now.tables.now }
    requires well { WellFormed drawing.now.program.now }
    requires defs { AreDefs drawing.now.program.now defs.now }
    requires order { IsOrderOf drawing.now.program.now drawing.now.points.now order.now }
    ensures { IfOk result (IsSketchOf drawing.now.program.now drawing.now.points.now drawing.now.problem.now) }
{
    let rules = rules_of(drawing.alloc, drawing.program, defs)?;
    let (writes, reads) = accesses(drawing.alloc, drawing.points, &rules)?;
    let mut sketch = Sketch {
        edges: Vec::new(drawing.alloc),
        full: false,
    };
    let laid = Laid {
        rules: &rules,
        defs,
    };
    let written = Writes {
        runs: &writes,
        order,
    };
    fill(drawing, &mut sketch, &laid, &written, &reads)?;
    Ok(sketch)
}

/// The same nodes.
fn copied(alloc: Global, nodes: &[Node]) -> Result<Vec<Node>, Memory>
    ensures { IfOk result (λ v. v.items ≡ nodes.now) }
{
    Ok(nodes.to_vec(alloc)?)
}

/// Edges in order, unless there are too many.
fn settled(
    rt: &(impl Threads + Sync),
    alloc: Global,
    sketch: Sketch,
) -> Result<Vec<Edge>, GraphFault>
    requires { sketch.full ≡ true → AreMany sketch.edges.items }
    ensures ordered { IfOk result (λ v. IsOrdered EdgeBefore v.items) }
    ensures same { IfOk result (λ v. HaveSame v.items sketch.edges.items) }
    ensures few { IfOk result (λ v. length v.items ≤ most_edges) }
    ensures whole { IfOk result (λ v. sketch.full ≡ false) }
    ensures many { IfErr result (λ f. f ≡ Edges → (es : List EdgeValue) × AreMany es × ((e : EdgeValue) → In e es → In e sketch.edges.items)) }
{
    let Sketch { mut edges, full } = sketch;
    if full {
        return Err(GraphFault::Edges);
    }
    let Ok(edges) = ordered(rt, alloc, &mut edges) else {
        return Err(GraphFault::Memory);
    };
    if edges.len() > MOST_EDGES {
        return Err(GraphFault::Edges);
    }
    Ok(edges)
}

/// The flow edges of a program under a problem, between its nodes: for each instruction what its column of the table says
/// (`specs/Edges.antt` of `argot_facts`), with resets through objects that escape or are read behind a write. Edges: exactly where
/// there are more than 16,777,216. It is exact over what the tables of points-to have, and where these are exact, over the
/// program (Reps, Horwitz and Sagiv, 1995, for calls and returns). Each edge is found once for each rule that has it, so time
/// is linear in what is found; at most twice the limit of edges is held.
pub fn edges(
    rt: &(impl Threads + Sync),
    alloc: Global,
    program: &Program,
    defs: &Defs,
    points: &Points,
    control: &Control,
    escaping: &Vec<bool>,
    problem: &Problem,
) -> Result<Graph, GraphFault>
    requires defs { AreDefs program.now defs.now }
    requires points { FitsPoints program.now points.now }
    requires control { AreFollowingBy program.now (FactsOf program.now points.now) control.now }
    requires escaping { AreEscapingBy program.now (FactsOf program.now points.now) escaping.now.items }
    requires problem { Fits program.now problem.now }
    ensures handed { IfOk result (IsGraphBy program.now (DefinedAt program.now) (FactsOf program.now points.now) problem.now) }
    ensures exact { ArePoints program.now points.now → IfOk result (IsGraphOf program.now problem.now) }
    ensures within { IfOk result (λ g. length g.edges ≤ most_edges) }
    ensures many { IfErr result (λ f. f ≡ Edges → HasManyEdgesBy program.now (DefinedAt program.now) (FactsOf program.now points.now) problem.now) }
{
    if program.len() > u32::MAX as usize {
        return Err(GraphFault::Memory);
    }
    let Ok(tables) = tables_of(alloc, program, problem) else {
        return Err(GraphFault::Memory);
    };
    let drawing = Drawing {
        alloc,
        program,
        points,
        problem,
        tables: &tables,
    };
    let order = Order {
        control,
        escaping: escaping.as_slice(),
    };
    let Ok(sketch) = sketched(&drawing, defs.as_slice(), &order) else {
        return Err(GraphFault::Memory);
    };
    let edges = match settled(rt, alloc, sketch) {
        Ok(edges) => edges,
        Err(fault) => return Err(fault),
    };
    let Ok(nodes) = copied(alloc, points.nodes().as_slice()) else {
        return Err(GraphFault::Memory);
    };
    Ok(Graph::from_parts(Sequence::from_vec(nodes), Sequence::from_vec(edges)))
}
