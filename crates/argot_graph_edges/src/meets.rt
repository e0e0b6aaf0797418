// The edges from writes of locations to reads of them.
ghost use Rattle.std.specs.Prelude.{◌≡◌, ◌↔◌, ◌<◌, ℕ, true, length, slice_get, IfOk, OnOk};
ghost use Rattle.argot_links.specs.Runs.{run};
ghost use Rattle.argot_plain.specs.Lists.{In};
ghost use Rattle.argot_graph_edges.specs.Adding.{Adds};
ghost use Rattle.argot_graph_edges.specs.Meeting.{IsBelow, MayMeetIn, MeetOf, MeetsOf, MeetsOfAll, MeetsAt, MeetsAtAll};

use crate::drawing::Drawing;
use crate::sketch::{Sketch, add};
use argot_control::Control;
use argot_facts::{Edge, EdgeKind, Node, Points, is_marked};
use argot_links::Runs;
use argot_text::Memory;
use std::alloc::Global;

/// Which place may come after which, and which sites escape.
#[derive(Drop)]
pub(crate) struct Order<'a> {
    pub control: &'a Control,
    pub escaping: &'a [bool],
}

/// The second numbers of pairs by the first, which are below `count`.
pub(crate) fn runs_of(alloc: Global, count: u32, pairs: &[(u32, u32)]) -> Result<Runs, Memory>
    requires { IsBelow count pairs.now }
    ensures count { IfOk result (λ r. length r ≡ count) }
    ensures runs { IfOk result (λ r. (h n : ℕ) → h < count → In n (run r h) ↔ In (h, n) pairs.now) }
{
    if pairs.len() > u32::MAX as usize {
        return Err(Memory);
    }
    Runs::of(alloc, count, pairs)
}

/// Whether what is written at the one place to an object of the site may still be there at the other.
pub(crate) fn may_meet(order: &Order<'_>, site: u32, write: u32, at: u32) -> bool
    ensures yes { result ≡ true → MayMeetIn order.now.escaping.now order.now.control.now site write at }
    ensures no { MayMeetIn order.now.escaping.now order.now.control.now site write at → result ≡ true }
{
    is_marked(order.escaping, site as usize) || order.control.follows(write, at)
}

/// The node of a number, where there is one.
pub(crate) fn node_at(points: &Points, n: u32) -> Option<Node>
    ensures { result ≡ slice_get points.now.nodes n }
{
    let nodes = points.nodes().as_slice();
    if n as usize >= nodes.len() {
        return None;
    }
    Some(nodes[n as usize])
}

/// Adds the edge from a write to a read of the same location, where they may meet.
fn meet(
    drawing: &Drawing<'_>,
    sketch: &mut Sketch,
    order: &Order<'_>,
    site: u32,
    ends: (u32, u32),
) -> Result<(), Memory>
    ensures { OnOk result (Adds (MeetOf drawing.now.points.now.nodes order.now.escaping.now order.now.control.now site ends.0 ends.1) sketch.old sketch.new) }
{
    let Some(write) = node_at(drawing.points, ends.0) else {
        return Ok(());
    };
    let Some(read) = node_at(drawing.points, ends.1) else {
        return Ok(());
    };
    if !may_meet(order, site, write.place, read.place) {
        return Ok(());
    }
    let edge = Edge {
        from: ends.0,
        to: ends.1,
        kind: EdgeKind::Reset,
    };
    add(drawing.alloc, sketch, edge)
}

/// Adds the edges from a write to these reads.
fn meet_reads(
    drawing: &Drawing<'_>,
    sketch: &mut Sketch,
    order: &Order<'_>,
    site: u32,
    write: u32,
    reads: &[u32],
) -> Result<(), Memory>
    ensures { OnOk result (Adds (MeetsOf drawing.now.points.now.nodes order.now.escaping.now order.now.control.now site reads.now write) sketch.old sketch.new) }
{
    for n in 0..reads.len() {
        meet(drawing, sketch, order, site, (write, reads[n]))?;
    }
    Ok(())
}

/// Adds the edges from these writes to these reads.
fn meet_writes(
    drawing: &Drawing<'_>,
    sketch: &mut Sketch,
    order: &Order<'_>,
    site: u32,
    writes: &[u32],
    reads: &[u32],
) -> Result<(), Memory>
    ensures { OnOk result (Adds (MeetsOfAll drawing.now.points.now.nodes order.now.escaping.now order.now.control.now site reads.now writes.now) sketch.old sketch.new) }
{
    for n in 0..writes.len() {
        meet_reads(drawing, sketch, order, site, writes[n], reads)?;
    }
    Ok(())
}

/// Adds the edges from the writes of each location to its reads.
pub(crate) fn meet_all(
    drawing: &Drawing<'_>,
    sketch: &mut Sketch,
    order: &Order<'_>,
    writes: &Runs,
    reads: &Runs,
) -> Result<(), Memory>
    requires writes { length writes.now ≡ length drawing.now.points.now.locations }
    requires reads { length reads.now ≡ length drawing.now.points.now.locations }
    ensures { OnOk result (Adds (MeetsAtAll drawing.now.points.now order.now.escaping.now order.now.control.now writes.now reads.now) sketch.old sketch.new) }
{
    for z in 0..drawing.points.location_count() as u32 {
        let site = drawing.points.location(z).site;
        meet_writes(drawing, sketch, order, site, writes.run(z), reads.run(z))?;
    }
    Ok(())
}
