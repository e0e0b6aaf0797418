// The edges to arguments of sinks and externals, from writes of what they reach.
ghost use Rattle.std.specs.Prelude.{◌≡◌, ◌≤◌, ◌<◌, ◌+◌, ℕ, Some, true, length, slice_get, IfOk, OnOk};
ghost use Rattle.argot_plain.specs.Code.{IsFunction, arguments, kind_of};
ghost use Rattle.argot_plain.specs.Leak.{LooksInside};
ghost use Rattle.argot_plain.specs.WellFormed.{WellFormed};
ghost use Rattle.argot_facts.specs.Marked.{IsSet};
ghost use Rattle.argot_facts.specs.Pointing.{FitsPoints, IsPlaceOf};
ghost use Rattle.argot_graph_edges.specs.Adding.{Adds};
ghost use Rattle.argot_graph_edges.specs.Inward.{reading, LooksIn, ToArgument, AtLocation, AtSite, IfSet, AtSites, OfArgument, OfArguments, OfCall, OfFunction, OfFunctions};
ghost use Rattle.argot_graph_edges.specs.Rows.{IsCallAt};
ghost use Rattle.argot_graph_edges.specs.Tabled.{AreTables};

use crate::calls::{Call, call_at};
use crate::drawing::{Drawing, number};
use crate::meets::{Order, may_meet, node_at};
use crate::sketch::{Sketch, add};
use crate::tables::is_sink;
use argot_escape::reached;
use argot_facts::{Edge, EdgeKind, Node, is_marked};
use argot_links::Runs;
use argot_plain::Kind;
use argot_text::Memory;

/// A leaf of an argument: its node's number, and the place at which it is read.
#[derive(Clone, Copy)]
pub(crate) struct Leaf {
    pub node: u32,
    pub at: u32,
}

/// The writes of each location by number, and which of them meet reads.
#[derive(Drop)]
pub(crate) struct Writes<'a> {
    pub runs: &'a Runs,
    pub order: &'a Order<'a>,
}

/// Whether the target looks at what its arguments reach.
fn looks_at(drawing: &Drawing<'_>, place: u32, g: u32) -> bool
    requires tables { AreTables drawing.now.program.now drawing.now.problem.now drawing.now.tables.now }
    requires inside { place < length drawing.now.program.now.instrs }
    requires target { g < length drawing.now.program.now.functions }
    ensures yes { result ≡ true → LooksInside drawing.now.program.now drawing.now.problem.now place g }
    ensures no { LooksInside drawing.now.program.now drawing.now.problem.now place g → result ≡ true }
{
    if is_sink(drawing.tables, place, g) {
        return true;
    }
    match drawing.program.function(g as usize).external {
        Some(_) => true,
        None => false,
    }
}

/// Whether some target of the place does.
fn looks_inside(drawing: &Drawing<'_>, place: u32) -> bool
    requires fits { FitsPoints drawing.now.program.now drawing.now.points.now }
    requires tables { AreTables drawing.now.program.now drawing.now.problem.now drawing.now.tables.now }
    requires inside { place < length drawing.now.program.now.instrs }
    ensures yes { result ≡ true → LooksIn drawing.now.program.now drawing.now.points.now drawing.now.problem.now place }
    ensures no { LooksIn drawing.now.program.now drawing.now.points.now drawing.now.problem.now place → result ≡ true }
{
    let targets = drawing.points.targets_of(place);
    for n in 0..targets.len() {
        if looks_at(drawing, place, targets[n]) {
            return true;
        }
    }
    false
}

/// Adds the edge from a write of an object of the site, where it may still be there.
fn meet_write(
    drawing: &Drawing<'_>,
    sketch: &mut Sketch,
    writes: &Writes<'_>,
    leaf: Leaf,
    site: u32,
    write: u32,
) -> Result<(), Memory>
    ensures { OnOk result (Adds (ToArgument drawing.now.points.now.nodes writes.now.order.now.escaping.now writes.now.order.now.control.now leaf site write) sketch.old sketch.new) }
{
    let Some(node) = node_at(drawing.points, write) else {
        return Ok(());
    };
    if !may_meet(writes.order, site, node.place, leaf.at) {
        return Ok(());
    }
    let edge = Edge {
        from: write,
        to: leaf.node,
        kind: EdgeKind::Reset,
    };
    add(drawing.alloc, sketch, edge)
}

/// Adds the edges from the writes of a location of the site.
fn meet_location(
    drawing: &Drawing<'_>,
    sketch: &mut Sketch,
    writes: &Writes<'_>,
    leaf: Leaf,
    site: u32,
    z: u32,
) -> Result<(), Memory>
    requires { z < length writes.now.runs.now }
    ensures { OnOk result (Adds (AtLocation drawing.now.points.now.nodes writes.now leaf site z) sketch.old sketch.new) }
{
    let list = writes.runs.run(z);
    for n in 0..list.len() {
        meet_write(drawing, sketch, writes, leaf, site, list[n])?;
    }
    Ok(())
}

/// Adds the edges from the writes of the objects of a site.
fn meet_site(
    drawing: &Drawing<'_>,
    sketch: &mut Sketch,
    writes: &Writes<'_>,
    leaf: Leaf,
    site: u32,
) -> Result<(), Memory>
    requires { length writes.now.runs.now ≡ length drawing.now.points.now.locations }
    ensures { OnOk result (Adds (AtSite drawing.now.points.now writes.now leaf site) sketch.old sketch.new) }
{
    let places = drawing.points.locations_of(site);
    for n in 0..places.len() {
        meet_location(drawing, sketch, writes, leaf, site, places[n])?;
    }
    Ok(())
}

/// The same, where the flag of the site is set.
fn meet_flagged(
    drawing: &Drawing<'_>,
    sketch: &mut Sketch,
    writes: &Writes<'_>,
    leaf: Leaf,
    flags: &[bool],
    site: u32,
) -> Result<(), Memory>
    requires { length writes.now.runs.now ≡ length drawing.now.points.now.locations }
    ensures { OnOk result (Adds (IfSet flags.now (AtSite drawing.now.points.now writes.now leaf) site) sketch.old sketch.new) }
{
    if !is_marked(flags, site as usize) {
        return Ok(());
    }
    meet_site(drawing, sketch, writes, leaf, site)
}

/// Adds the edges from the writes of the objects of the sites whose flags are set.
fn meet_sites(
    drawing: &Drawing<'_>,
    sketch: &mut Sketch,
    writes: &Writes<'_>,
    leaf: Leaf,
    flags: &[bool],
) -> Result<(), Memory>
    requires runs { length writes.now.runs.now ≡ length drawing.now.points.now.locations }
    requires few { length flags.now < 4294967296 }
    ensures { OnOk result (Adds (AtSites flags.now (AtSite drawing.now.points.now writes.now leaf)) sketch.old sketch.new) }
{
    for site in 0..flags.len() as u32 {
        meet_flagged(drawing, sketch, writes, leaf, flags, site)?;
    }
    Ok(())
}

/// Adds the edges to an argument that is read at a place: the value of the index at the call's place.
fn meet_argument(
    drawing: &Drawing<'_>,
    sketch: &mut Sketch,
    writes: &Writes<'_>,
    place: u32,
    at: u32,
    index: u32,
) -> Result<(), Memory>
    requires fits { FitsPoints drawing.now.program.now drawing.now.points.now }
    requires small { place < 4294967295 }
    requires runs { length writes.now.runs.now ≡ length drawing.now.points.now.locations }
    ensures { OnOk result (Adds (OfArgument drawing.now.points.now writes.now place at index) sketch.old sketch.new) }
{
    let first = Node {
        place,
        index,
        leaf: 0,
    };
    let Some(node) = number(drawing.points.nodes(), first) else {
        return Ok(());
    };
    let Ok(sites) = u32::try_from(drawing.program.site_count()) else {
        return Err(Memory);
    };
    let flags = reached(drawing.alloc, drawing.points, sites, place, index)?;
    if flags.len() > u32::MAX as usize {
        return Err(Memory);
    }
    meet_sites(drawing, sketch, writes, Leaf { node, at }, &flags)
}

/// Adds the edges to the arguments of a call.
fn meet_arguments(
    drawing: &Drawing<'_>,
    sketch: &mut Sketch,
    writes: &Writes<'_>,
    call: &Call<'_>,
    at: u32,
) -> Result<(), Memory>
    requires fits { FitsPoints drawing.now.program.now drawing.now.points.now }
    requires small { call.now.place < 4294967295 }
    requires runs { length writes.now.runs.now ≡ length drawing.now.points.now.locations }
    ensures { OnOk result (Adds (OfArguments drawing.now.points.now writes.now call.now.place at call.now.behind (length (arguments call.now.callee.now call.now.args.now))) sketch.old sketch.new) }
{
    for k in 0..call.arguments() {
        let index = index_of(call.behind, k)?;
        meet_argument(drawing, sketch, writes, call.place, at, index)?;
    }
    Ok(())
}

/// The index behind so many results.
fn index_of(behind: usize, k: usize) -> Result<u32, Memory>
    ensures { IfOk result (λ n. n ≡ behind + k) }
{
    let Ok(behind) = u32::try_from(behind) else {
        return Err(Memory);
    };
    let Ok(k) = u32::try_from(k) else {
        return Err(Memory);
    };
    match behind.checked_add(k) {
        Some(index) => Ok(index),
        None => Err(Memory),
    }
}

/// Where the handed values of a place are read.
fn reading(kind: &Kind, place: u32, exit: u32) -> u32
    ensures { result ≡ reading (Some kind.now) place exit }
{
    match kind {
        Kind::Defer { .. } => exit,
        _ => place,
    }
}

/// Adds the edges to the arguments of the place, where it is a call some target of which looks inside.
fn meet_call(
    drawing: &Drawing<'_>,
    sketch: &mut Sketch,
    writes: &Writes<'_>,
    exit: u32,
    place: u32,
) -> Result<(), Memory>
    requires fits { FitsPoints drawing.now.program.now drawing.now.points.now }
    requires tables { AreTables drawing.now.program.now drawing.now.problem.now drawing.now.tables.now }
    requires inside { place < length drawing.now.program.now.instrs }
    requires small { place < 4294967295 }
    requires runs { length writes.now.runs.now ≡ length drawing.now.points.now.locations }
    ensures { OnOk result (Adds (OfCall drawing.now.program.now drawing.now.points.now drawing.now.problem.now writes.now exit place) sketch.old sketch.new) }
{
    let Some(call) = call_at(drawing.program, place) else {
        return Ok(());
    };
    if !looks_inside(drawing, place) {
        return Ok(());
    }
    let at = reading(drawing.program.kind(place as usize), place, exit);
    meet_arguments(drawing, sketch, writes, &call, at)
}

/// Adds the edges of the calls of a function.
fn meet_function(
    drawing: &Drawing<'_>,
    sketch: &mut Sketch,
    writes: &Writes<'_>,
    h: u32,
) -> Result<(), Memory>
    requires fits { FitsPoints drawing.now.program.now drawing.now.points.now }
    requires tables { AreTables drawing.now.program.now drawing.now.problem.now drawing.now.tables.now }
    requires well { WellFormed drawing.now.program.now }
    requires inside { h < length drawing.now.program.now.functions }
    requires runs { length writes.now.runs.now ≡ length drawing.now.points.now.locations }
    ensures { OnOk result (Adds (OfFunction drawing.now.program.now drawing.now.points.now drawing.now.problem.now writes.now h) sketch.old sketch.new) }
{
    let function = drawing.program.function(h as usize);
    for place in function.entry..function.leave + 1 {
        meet_call(drawing, sketch, writes, function.exit, place)?;
    }
    Ok(())
}

/// Adds the edges of all calls.
pub(crate) fn meet_functions(
    drawing: &Drawing<'_>,
    sketch: &mut Sketch,
    writes: &Writes<'_>,
) -> Result<(), Memory>
    requires fits { FitsPoints drawing.now.program.now drawing.now.points.now }
    requires tables { AreTables drawing.now.program.now drawing.now.problem.now drawing.now.tables.now }
    requires well { WellFormed drawing.now.program.now }
    requires runs { length writes.now.runs.now ≡ length drawing.now.points.now.locations }
    ensures { OnOk result (Adds (OfFunctions drawing.now.program.now drawing.now.points.now drawing.now.problem.now writes.now) sketch.old sketch.new) }
{
    for h in 0..drawing.program.function_count() as u32 {
        meet_function(drawing, sketch, writes, h)?;
    }
    Ok(())
}
