// The edges for which rules of points-to stand: data that moves as references do.
ghost use Rattle.std.specs.Prelude.{◌≡◌, ◌<◌, ℕ, [], length, slice_get, IfOk, OnOk};
ghost use Rattle.argot_plain.specs.Code.{kind_of};
ghost use Rattle.argot_plain.specs.WellFormed.{WellFormed};
ghost use Rattle.argot_facts.specs.Pointing.{FitsPoints};
ghost use Rattle.argot_graph_edges.specs.Adding.{Adds};
ghost use Rattle.argot_graph_edges.specs.Rows.{IsNumberedAs, Moving, is_barred};
ghost use Rattle.argot_graph_edges.specs.Handing.{Entered, HandedBack};
ghost use Rattle.argot_graph_edges.specs.Drawn.{Chosen, RuleDrawn, RulesDrawn};
ghost use Rattle.argot_graph_edges.specs.Tabled.{AreTables};

use crate::calls::call_at;
use crate::drawing::{Drawing, draw};
use crate::handing::{Value, enter, hand_back};
use crate::sketch::Sketch;
use crate::tables::is_validator;
use argot_facts::{EdgeKind, Node};
use argot_plain::Kind;
use argot_points_rules::{Owned, Rule};
use argot_text::Memory;

/// A number that is small enough for an index.
fn small(n: usize) -> Result<u32, Memory>
    ensures { IfOk result (λ m. m ≡ n) }
{
    match u32::try_from(n) {
        Ok(small) => Ok(small),
        Err(_) => Err(Memory),
    }
}

/// Whether the place is a Passed through a validator.
fn is_barred(drawing: &Drawing<'_>, place: u32) -> bool
    requires tables { AreTables drawing.now.program.now drawing.now.problem.now drawing.now.tables.now }
    requires well { WellFormed drawing.now.program.now }
    ensures { result ≡ is_barred drawing.now.problem.now (kind_of (slice_get drawing.now.program.now.instrs place)) }
{
    if place as usize >= drawing.program.len() {
        return false;
    }
    match drawing.program.kind(place as usize) {
        Kind::Passed { callee, .. } => is_validator(drawing.tables, *callee),
        _ => false,
    }
}

/// Adds the edge along which data of the function h moves as it is, if the function is live.
fn move_on(
    drawing: &Drawing<'_>,
    sketch: &mut Sketch,
    h: u32,
    from: Node,
    to: Node,
) -> Result<(), Memory>
    ensures { OnOk result (Adds (IsNumberedAs drawing.now.points.now.nodes (Moving drawing.now.program.now drawing.now.points.now drawing.now.problem.now h from to)) sketch.old sketch.new) }
{
    if !drawing.points.is_live(h) {
        return Ok(());
    }
    draw(drawing, sketch, from, EdgeKind::Plain, to)
}

/// Adds the edges of the value by which the callee of a call is found: to the parameters that it becomes.
fn choose(drawing: &Drawing<'_>, sketch: &mut Sketch, place: u32, index: u32) -> Result<(), Memory>
    requires fits { FitsPoints drawing.now.program.now drawing.now.points.now }
    requires well { WellFormed drawing.now.program.now }
    ensures { OnOk result (Adds (Chosen drawing.now.program.now drawing.now.points.now drawing.now.problem.now place index) sketch.old sketch.new) }
{
    let Some(call) = call_at(drawing.program, place) else {
        return Ok(());
    };
    let Some(behind) = small(call.behind)?.checked_add(index) else {
        return Err(Memory);
    };
    let value = Value {
        index,
        path: &[],
        node: Node {
            place,
            index: behind,
            leaf: 0,
        },
    };
    enter(drawing, sketch, &call, &value)
}

/// Adds the edges of a handed value to the parameters that it becomes.
fn enter_at(
    drawing: &Drawing<'_>,
    sketch: &mut Sketch,
    place: u32,
    value: &Value<'_>,
) -> Result<(), Memory>
    requires fits { FitsPoints drawing.now.program.now drawing.now.points.now }
    requires well { WellFormed drawing.now.program.now }
    ensures { OnOk result (Adds (Entered drawing.now.program.now drawing.now.points.now drawing.now.problem.now place value.now) sketch.old sketch.new) }
{
    let Some(call) = call_at(drawing.program, place) else {
        return Ok(());
    };
    enter(drawing, sketch, &call, value)
}

/// Adds the edges to a result from what the targets hand back.
fn return_at(
    drawing: &Drawing<'_>,
    sketch: &mut Sketch,
    place: u32,
    value: &Value<'_>,
) -> Result<(), Memory>
    requires fits { FitsPoints drawing.now.program.now drawing.now.points.now }
    requires tables { AreTables drawing.now.program.now drawing.now.problem.now drawing.now.tables.now }
    requires well { WellFormed drawing.now.program.now }
    ensures { OnOk result (Adds (HandedBack drawing.now.program.now drawing.now.points.now drawing.now.problem.now place value.now) sketch.old sketch.new) }
{
    if place as usize >= drawing.program.len() {
        return Ok(());
    }
    hand_back(drawing, sketch, place, value)
}

/// Adds the edges for which a rule of a function stands.
fn draw_rule(drawing: &Drawing<'_>, sketch: &mut Sketch, h: u32, rule: &Rule) -> Result<(), Memory>
    requires fits { FitsPoints drawing.now.program.now drawing.now.points.now }
    requires tables { AreTables drawing.now.program.now drawing.now.problem.now drawing.now.tables.now }
    requires well { WellFormed drawing.now.program.now }
    ensures { OnOk result (Adds (RuleDrawn drawing.now.program.now drawing.now.points.now drawing.now.problem.now h rule.now) sketch.old sketch.new) }
{
    match rule {
        Rule::Copy { to, source } => {
            if is_barred(drawing, to.place) {
                return Ok(());
            }
            move_on(drawing, sketch, h, *source, *to)
        }
        Rule::Shift { to, source, .. } => move_on(drawing, sketch, h, *source, *to),
        Rule::Keep { to, source, .. } => move_on(drawing, sketch, h, *source, *to),
        Rule::Load { to, at, .. } => {
            if to.index != 0 {
                return Ok(());
            }
            move_on(drawing, sketch, h, *at, *to)
        }
        Rule::Enter {
            place,
            index,
            path,
            source,
            ..
        } => {
            let value = Value {
                index: *index,
                path: path.as_slice(),
                node: *source,
            };
            enter_at(drawing, sketch, *place, &value)
        }
        Rule::Choose { place, index, .. } => choose(drawing, sketch, *place, *index),
        Rule::Return {
            place,
            index,
            path,
            to,
            ..
        } => {
            let value = Value {
                index: *index,
                path: path.as_slice(),
                node: *to,
            };
            return_at(drawing, sketch, *place, &value)
        }
        Rule::Put { .. } | Rule::Store { .. } | Rule::Aim { .. } | Rule::Fresh { .. } => Ok(()),
    }
}

/// Adds the edges for which these rules stand.
pub(crate) fn draw_rules(
    drawing: &Drawing<'_>,
    sketch: &mut Sketch,
    rules: &[Owned],
) -> Result<(), Memory>
    requires fits { FitsPoints drawing.now.program.now drawing.now.points.now }
    requires tables { AreTables drawing.now.program.now drawing.now.problem.now drawing.now.tables.now }
    requires well { WellFormed drawing.now.program.now }
    ensures { OnOk result (Adds (RulesDrawn drawing.now.program.now drawing.now.points.now drawing.now.problem.now rules.now) sketch.old sketch.new) }
{
    for n in 0..rules.len() {
        draw_rule(drawing, sketch, rules[n].function, &rules[n].rule)?;
    }
    Ok(())
}
