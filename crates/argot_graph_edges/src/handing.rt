// What is handed on to parameters, and what is handed back.
ghost use Rattle.std.specs.Prelude.{◌≡◌, ◌<◌, ℕ, length, slice_get, OnOk, IfSome, IsNone};
ghost use Rattle.argot_plain.specs.Code.{kind_of};
ghost use Rattle.argot_plain.specs.Counts.{cleans};
ghost use Rattle.argot_plain.specs.WellFormed.{WellFormed};
ghost use Rattle.argot_facts.specs.declared.nodes.Node.{Node as NodeValue};
ghost use Rattle.argot_facts.specs.Pointing.{FitsPoints};
ghost use Rattle.argot_graph_edges.specs.Adding.{Adds};
ghost use Rattle.argot_graph_edges.specs.Handing.{EntersAt, Entered, BackAt, HandedBack};
ghost use Rattle.argot_graph_edges.specs.Rows.{IsCallAt, IsNumberedAs, HandsBack, entering};
ghost use Rattle.argot_graph_edges.specs.Tabled.{AreTables};

use crate::calls::{Call, leaf_of, parameter};
use crate::drawing::{Drawing, draw};
use crate::sketch::Sketch;
use crate::tables::cleans;
use argot_facts::{EdgeKind, Node};
use argot_plain::{Kind, Program};
use argot_points_rules::leaves_of;
use argot_text::{Memory, PathStep};

/// A value of a call: its index, the path of one of its leaves, and the node of that leaf.
#[derive(Drop)]
pub(crate) struct Value<'a> {
    pub index: u32,
    pub path: &'a [PathStep],
    pub node: Node,
}

/// The kind of an edge that enters a target.
fn entering(kind: &Kind, place: u32) -> EdgeKind
    ensures { result ≡ entering (Some kind.now) place }
{
    match kind {
        Kind::Go { .. } => EdgeKind::Reset,
        _ => EdgeKind::Call(place),
    }
}

/// Adds the edge from a handed value to the parameter of a target.
fn enter_target(
    drawing: &Drawing<'_>,
    sketch: &mut Sketch,
    call: &Call<'_>,
    value: &Value<'_>,
    g: u32,
) -> Result<(), Memory>
    requires inside { call.now.place < length drawing.now.program.now.instrs }
    requires call { IsCallAt drawing.now.program.now call.now.place call.now.callee.now call.now.args.now call.now.behind }
    requires target { g < length drawing.now.program.now.functions }
    requires well { WellFormed drawing.now.program.now }
    ensures { OnOk result (Adds (EntersAt drawing.now.program.now drawing.now.points.now call.now.place value.now g) sketch.old sketch.new) }
{
    let program = drawing.program;
    let Some(to) = parameter(program, call, g, value.index, value.node.leaf, value.path) else {
        return Ok(());
    };
    let kind = entering(program.kind(call.place as usize), call.place);
    draw(drawing, sketch, value.node, kind, to)
}

/// Adds the edges from a handed value to the parameters of all targets.
pub(crate) fn enter(
    drawing: &Drawing<'_>,
    sketch: &mut Sketch,
    call: &Call<'_>,
    value: &Value<'_>,
) -> Result<(), Memory>
    requires fits { FitsPoints drawing.now.program.now drawing.now.points.now }
    requires inside { call.now.place < length drawing.now.program.now.instrs }
    requires call { IsCallAt drawing.now.program.now call.now.place call.now.callee.now call.now.args.now call.now.behind }
    requires well { WellFormed drawing.now.program.now }
    ensures { OnOk result (Adds (Entered drawing.now.program.now drawing.now.points.now drawing.now.problem.now call.now.place value.now) sketch.old sketch.new) }
{
    let targets = drawing.points.targets_of(call.place);
    for n in 0..targets.len() {
        enter_target(drawing, sketch, call, value, targets[n])?;
    }
    Ok(())
}

/// The register of this index.
fn register_at(registers: &[u32], index: u32) -> Option<u32>
    ensures { result ≡ slice_get registers.now index }
{
    if (index as usize) < registers.len() {
        return Some(registers[index as usize]);
    }
    None
}

/// The node of what a function hands back, at the leaf with the path; none where it has no body.
fn handed_back(program: &Program, g: u32, value: &Value<'_>) -> Option<Node>
    requires inside { g < length program.now.functions }
    requires well { WellFormed program.now }
    ensures some { IfSome result (HandsBack program.now g value.now.index value.now.path.now) }
    ensures only { IfSome result (λ a. (b : NodeValue) → HandsBack program.now g value.now.index value.now.path.now b → b ≡ a) }
    ensures none { IsNone result → (b : NodeValue) → HandsBack program.now g value.now.index value.now.path.now b → ⊥ }
{
    let function = program.function(g as usize);
    if function.external.is_some() {
        return None;
    }
    let Kind::Leave { from } = program.kind(function.leave as usize) else {
        return None;
    };
    let Some(register) = register_at(from.as_slice(), value.index) else {
        return None;
    };
    let Some(leaf) = leaf_of(leaves_of(function, register), value.node.leaf, value.path) else {
        return None;
    };
    Some(Node {
        place: function.leave,
        index: value.index,
        leaf,
    })
}

/// Adds the edge to a result from what a target hands back, unless the target cleans.
fn hand_back_from(
    drawing: &Drawing<'_>,
    sketch: &mut Sketch,
    place: u32,
    value: &Value<'_>,
    g: u32,
) -> Result<(), Memory>
    requires tables { AreTables drawing.now.program.now drawing.now.problem.now drawing.now.tables.now }
    requires inside { place < length drawing.now.program.now.instrs }
    requires target { g < length drawing.now.program.now.functions }
    requires well { WellFormed drawing.now.program.now }
    ensures { OnOk result (Adds (BackAt drawing.now.program.now drawing.now.points.now drawing.now.problem.now place value.now g) sketch.old sketch.new) }
{
    if cleans(drawing.tables, place, g) {
        return Ok(());
    }
    let Some(from) = handed_back(drawing.program, g, value) else {
        return Ok(());
    };
    draw(drawing, sketch, from, EdgeKind::Return(place), value.node)
}

/// Adds the edges to a result from what all targets hand back.
pub(crate) fn hand_back(
    drawing: &Drawing<'_>,
    sketch: &mut Sketch,
    place: u32,
    value: &Value<'_>,
) -> Result<(), Memory>
    requires fits { FitsPoints drawing.now.program.now drawing.now.points.now }
    requires tables { AreTables drawing.now.program.now drawing.now.problem.now drawing.now.tables.now }
    requires inside { place < length drawing.now.program.now.instrs }
    requires well { WellFormed drawing.now.program.now }
    ensures { OnOk result (Adds (HandedBack drawing.now.program.now drawing.now.points.now drawing.now.problem.now place value.now) sketch.old sketch.new) }
{
    let targets = drawing.points.targets_of(place);
    for n in 0..targets.len() {
        hand_back_from(drawing, sketch, place, value, targets[n])?;
    }
    Ok(())
}
