// The edges of calls of externals whose entry flows: from each argument to each result.
ghost use Rattle.std.specs.Prelude.{◌≡◌, ◌≤◌, ◌<◌, ◌+◌, ℕ, Some, true, length, slice_get, OnOk};
ghost use Rattle.argot_plain.specs.Code.{IsAt, arguments};
ghost use Rattle.argot_facts.specs.Pointing.{FitsPoints};
ghost use Rattle.argot_facts.specs.declared.nodes.Node.{Node as NodeValue};
ghost use Rattle.argot_graph_edges.specs.Adding.{Adds};
ghost use Rattle.argot_graph_edges.specs.Outward.{FlowsAt, FlowsOut, IsArgumentOf, ToResult, ToResults, FromArgument, FromArguments, OfExternal, OfExternals};
ghost use Rattle.argot_graph_edges.specs.Rows.{IsCallAt};
ghost use Rattle.argot_graph_edges.specs.Tabled.{AreTables};

use crate::calls::Call;
use crate::drawing::Drawing;
use crate::sketch::{Sketch, add};
use crate::tables::cleans;
use argot_facts::{Edge, EdgeKind, Node, Nodes};
use argot_plain::Kind;
use argot_text::Memory;

/// Whether data of the arguments of a call flows out by the target: an external whose entry flows, unless it cleans.
fn flows_at(drawing: &Drawing<'_>, place: u32, g: u32) -> bool
    requires tables { AreTables drawing.now.program.now drawing.now.problem.now drawing.now.tables.now }
    requires inside { place < length drawing.now.program.now.instrs }
    requires target { g < length drawing.now.program.now.functions }
    ensures yes { result ≡ true → FlowsAt drawing.now.program.now drawing.now.problem.now place g }
    ensures no { FlowsAt drawing.now.program.now drawing.now.problem.now place g → result ≡ true }
{
    if cleans(drawing.tables, place, g) {
        return false;
    }
    match drawing.program.function(g as usize).external {
        Some(flows) => flows,
        None => false,
    }
}

/// Whether it does by some target of the place.
fn flows_out(drawing: &Drawing<'_>, place: u32) -> bool
    requires fits { FitsPoints drawing.now.program.now drawing.now.points.now }
    requires tables { AreTables drawing.now.program.now drawing.now.problem.now drawing.now.tables.now }
    requires inside { place < length drawing.now.program.now.instrs }
    ensures yes { result ≡ true → FlowsOut drawing.now.program.now drawing.now.points.now drawing.now.problem.now place }
    ensures no { FlowsOut drawing.now.program.now drawing.now.points.now drawing.now.problem.now place → result ≡ true }
{
    let targets = drawing.points.targets_of(place);
    for n in 0..targets.len() {
        if flows_at(drawing, place, targets[n]) {
            return true;
        }
    }
    false
}

/// Adds the edge to the node, where it is one of a result of the call.
fn draw_result(
    drawing: &Drawing<'_>,
    sketch: &mut Sketch,
    from: u32,
    call: &Call<'_>,
    n: u32,
) -> Result<(), Memory>
    requires { n < length drawing.now.points.now.nodes }
    ensures { OnOk result (Adds (ToResult drawing.now.points.now.nodes from call.now.place call.now.behind n) sketch.old sketch.new) }
{
    let node = drawing.points.nodes().node(n);
    if node.place != call.place || node.index as usize >= call.behind {
        return Ok(());
    }
    let kind = EdgeKind::Plain;
    add(drawing.alloc, sketch, Edge { from, to: n, kind })
}

/// Adds the edges to results among the nodes from `first` on, before `last`.
fn draw_results(
    drawing: &Drawing<'_>,
    sketch: &mut Sketch,
    from: u32,
    call: &Call<'_>,
    first: u32,
    last: u32,
) -> Result<(), Memory>
    requires order { first ≤ last }
    requires inside { last ≤ length drawing.now.points.now.nodes }
    ensures { OnOk result (Adds (ToResults drawing.now.points.now.nodes from call.now.place call.now.behind first last) sketch.old sketch.new) }
{
    for n in first..last {
        draw_result(drawing, sketch, from, call, n)?;
    }
    Ok(())
}

/// Whether the node is one of an argument of the call.
fn is_argument(call: &Call<'_>, node: Node) -> bool
    ensures yes { result ≡ true → IsArgumentOf call.now.place call.now.behind (length (arguments call.now.callee.now call.now.args.now)) node }
    ensures no { IsArgumentOf call.now.place call.now.behind (length (arguments call.now.callee.now call.now.args.now)) node → result ≡ true }
{
    let index = node.index as usize;
    if node.place != call.place || index < call.behind {
        return false;
    }
    index - call.behind < call.arguments()
}

/// Adds the edges from the node, where it is one of an argument.
fn draw_argument(
    drawing: &Drawing<'_>,
    sketch: &mut Sketch,
    call: &Call<'_>,
    n: u32,
    first: u32,
    last: u32,
) -> Result<(), Memory>
    requires order { first ≤ last }
    requires inside { last ≤ length drawing.now.points.now.nodes }
    requires node { n < length drawing.now.points.now.nodes }
    ensures { OnOk result (Adds (FromArgument drawing.now.points.now.nodes call.now.place call.now.behind (length (arguments call.now.callee.now call.now.args.now)) first last n) sketch.old sketch.new) }
{
    if !is_argument(call, drawing.points.nodes().node(n)) {
        return Ok(());
    }
    draw_results(drawing, sketch, n, call, first, last)
}

/// Adds the edges from arguments to results among these nodes.
fn draw_arguments(
    drawing: &Drawing<'_>,
    sketch: &mut Sketch,
    call: &Call<'_>,
    first: u32,
    last: u32,
) -> Result<(), Memory>
    requires order { first ≤ last }
    requires inside { last ≤ length drawing.now.points.now.nodes }
    ensures { OnOk result (Adds (FromArguments drawing.now.points.now.nodes call.now.place call.now.behind (length (arguments call.now.callee.now call.now.args.now)) first last) sketch.old sketch.new) }
{
    for n in first..last {
        draw_argument(drawing, sketch, call, n, first, last)?;
    }
    Ok(())
}

/// Where the nodes of a place begin, or of the first place behind it that has some.
pub(crate) fn first_of(nodes: &Nodes, place: u32) -> u32
    requires few { length nodes.now ≤ 262144 }
    ensures inside { result ≤ length nodes.now }
    ensures before { (m : ℕ) (a : NodeValue) → slice_get nodes.now m ≡ Some a → m < result → a.place < place }
    ensures behind { (m : ℕ) (a : NodeValue) → slice_get nodes.now m ≡ Some a → result ≤ m → place ≤ a.place }
{
    nodes.first_from(Node {
        place,
        index: 0,
        leaf: 0,
    }) as u32
}

/// Adds the edges of the place, where it calls such an external.
fn draw_external(drawing: &Drawing<'_>, sketch: &mut Sketch, place: u32) -> Result<(), Memory>
    requires fits { FitsPoints drawing.now.program.now drawing.now.points.now }
    requires tables { AreTables drawing.now.program.now drawing.now.problem.now drawing.now.tables.now }
    requires inside { place < length drawing.now.program.now.instrs }
    requires small { place < 4294967295 }
    ensures { OnOk result (Adds (OfExternal drawing.now.program.now drawing.now.points.now drawing.now.problem.now place) sketch.old sketch.new) }
{
    let Kind::Call { to, callee, args } = drawing.program.kind(place as usize) else {
        return Ok(());
    };
    if !flows_out(drawing, place) {
        return Ok(());
    }
    let call = Call {
        place,
        callee,
        args: args.as_slice(),
        behind: to.len(),
    };
    let nodes = drawing.points.nodes();
    let first = first_of(nodes, place);
    let last = first_of(nodes, place + 1);
    draw_arguments(drawing, sketch, &call, first, last)
}

/// Adds the edges of all calls of such externals.
pub(crate) fn draw_externals(drawing: &Drawing<'_>, sketch: &mut Sketch) -> Result<(), Memory>
    requires fits { FitsPoints drawing.now.program.now drawing.now.points.now }
    requires tables { AreTables drawing.now.program.now drawing.now.problem.now drawing.now.tables.now }
    requires few { length drawing.now.program.now.instrs ≤ 1048576 }
    ensures { OnOk result (Adds (OfExternals drawing.now.program.now drawing.now.points.now drawing.now.problem.now) sketch.old sketch.new) }
{
    for place in 0..drawing.program.len() as u32 {
        draw_external(drawing, sketch, place)?;
    }
    Ok(())
}
