// The edges of computed values: from each leaf of what is read.
ghost use Rattle.std.specs.Prelude.{◌≡◌, ◌<◌, ℕ, true, length, OnOk};
ghost use Rattle.std.specs.List.Sorted.{IsNonDecreasingBy};
ghost use Rattle.argot_facts.specs.Numbers.{leaves_of};
ghost use Rattle.argot_plain.specs.WellFormed.{WellFormed};
ghost use Rattle.argot_facts.specs.Pointing.{FitsPoints};
ghost use Rattle.argot_points_rules.specs.Stretches.{reached};
ghost use Rattle.argot_graph_edges.specs.Adding.{Adds};
ghost use Rattle.argot_graph_edges.specs.Operating.{FromLeaves, FromDefinitions, FromRegisters, OfPlace, OfFunction, OfFunctions};

use crate::drawing::{Drawing, draw};
use crate::sketch::Sketch;
use argot_facts::{EdgeKind, Node};
use argot_plain::{Function, Kind};
use argot_points_rules::{are_in_order, definitions, leaves_of, stretch_of};
use argot_text::Memory;

/// Definitions, and whether they are in the order of the places that they reach.
#[derive(Drop)]
pub(crate) struct Found<'a> {
    pub defs: &'a [(u32, u32, u32)],
    pub in_order: bool,
}

/// Adds the edges to a node from so many leaves of a definition.
fn draw_leaves(
    drawing: &Drawing<'_>,
    sketch: &mut Sketch,
    from: (u32, u32),
    leaves: usize,
    to: Node,
) -> Result<(), Memory>
    requires few { leaves < 4294967296 }
    ensures { OnOk result (Adds (FromLeaves drawing.now.points.now.nodes from leaves to) sketch.old sketch.new) }
{
    for leaf in 0..leaves as u32 {
        let source = Node {
            place: from.0,
            index: from.1,
            leaf,
        };
        draw(drawing, sketch, source, EdgeKind::Plain, to)?;
    }
    Ok(())
}

/// Adds those from these definitions.
fn draw_definitions(
    drawing: &Drawing<'_>,
    sketch: &mut Sketch,
    found: &[(u32, u32)],
    leaves: usize,
    to: Node,
) -> Result<(), Memory>
    requires few { leaves < 4294967296 }
    ensures { OnOk result (Adds (FromDefinitions drawing.now.points.now.nodes found.now leaves to) sketch.old sketch.new) }
{
    for n in 0..found.len() {
        draw_leaves(drawing, sketch, found[n], leaves, to)?;
    }
    Ok(())
}

/// Adds those from these registers, by the definitions of each that reach the place.
fn draw_registers(
    drawing: &Drawing<'_>,
    sketch: &mut Sketch,
    function: &Function,
    defs: &[(u32, u32, u32)],
    from: &[u32],
    place: u32,
) -> Result<(), Memory>
    requires few { (r : ℕ) → length (leaves_of function.now r) < 4294967296 }
    ensures { OnOk result (Adds (FromRegisters drawing.now.program.now drawing.now.points.now.nodes function.now defs.now place from.now) sketch.old sketch.new) }
{
    let to = Node {
        place,
        index: 0,
        leaf: 0,
    };
    for n in 0..from.len() {
        let register = from[n];
        let found = definitions(
            drawing.alloc,
            drawing.program,
            function,
            defs,
            place,
            register,
        )?;
        draw_definitions(
            drawing,
            sketch,
            &found,
            leaves_of(function, register).len(),
            to,
        )?;
    }
    Ok(())
}

/// Adds the edges of a place, where it computes something.
fn draw_place(
    drawing: &Drawing<'_>,
    sketch: &mut Sketch,
    function: &Function,
    found: &Found<'_>,
    place: u32,
) -> Result<(), Memory>
    requires inside { place < length drawing.now.program.now.instrs }
    requires few { (r : ℕ) → length (leaves_of function.now r) < 4294967296 }
    requires order { found.now.in_order ≡ true → IsNonDecreasingBy reached found.now.defs.now }
    ensures { OnOk result (Adds (OfPlace drawing.now.program.now drawing.now.points.now.nodes function.now found.now.defs.now place) sketch.old sketch.new) }
{
    match drawing.program.kind(place as usize) {
        Kind::Op { from, .. } => {
            let defs = stretch_of(found.defs, found.in_order, place);
            draw_registers(drawing, sketch, function, defs, from.as_slice(), place)
        }
        _ => Ok(()),
    }
}

/// Adds the edges of the places of a function.
fn draw_function(
    drawing: &Drawing<'_>,
    sketch: &mut Sketch,
    found: &Found<'_>,
    h: u32,
) -> Result<(), Memory>
    requires inside { h < length drawing.now.program.now.functions }
    requires well { WellFormed drawing.now.program.now }
    requires order { found.now.in_order ≡ true → IsNonDecreasingBy reached found.now.defs.now }
    ensures { OnOk result (Adds (OfFunction drawing.now.program.now drawing.now.points.now.nodes found.now.defs.now h) sketch.old sketch.new) }
{
    let function = drawing.program.function(h as usize);
    for place in function.entry..function.leave + 1 {
        draw_place(drawing, sketch, function, found, place)?;
    }
    Ok(())
}

/// Adds the edges of all that live functions compute.
pub(crate) fn draw_ops(
    drawing: &Drawing<'_>,
    sketch: &mut Sketch,
    defs: &[(u32, u32, u32)],
) -> Result<(), Memory>
    requires fits { FitsPoints drawing.now.program.now drawing.now.points.now }
    requires well { WellFormed drawing.now.program.now }
    ensures { OnOk result (Adds (OfFunctions drawing.now.program.now drawing.now.points.now.nodes defs.now drawing.now.points.now.live) sketch.old sketch.new) }
{
    let found = Found {
        defs,
        in_order: are_in_order(defs),
    };
    let live = drawing.points.live();
    for n in 0..live.len() {
        draw_function(drawing, sketch, &found, live[n])?;
    }
    Ok(())
}
