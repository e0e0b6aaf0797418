// What is printed of a program's references: the lines of `relation.rt`, where there are at most ten thousand references, and
// then how many there are with a sum over them.
use crate::finding::{points, points_by_passes};
use crate::relation::push_points;
use crate::words::Form;
use argot_facts::{Loc, Node, Points};
use argot_plain::Program;
use argot_points::PointsFault;
use argot_text::{Memory, Out};
use std::alloc::Global;

/// As many lines are printed at most.
const MOST_LINES: u64 = 10_000;

/// The words of a fault.
pub fn text_of(fault: PointsFault) -> &'static str {
    match fault {
        PointsFault::Nodes => "too many nodes\n",
        PointsFault::Locations => "too many locations\n",
        PointsFault::Table => "too large a table\n",
        PointsFault::Memory => "out of memory\n",
    }
}

fn of_location(location: &Loc) -> u64 {
    u64::from(location.site)
        .wrapping_mul(1_000_003)
        .wrapping_add(location.path.len() as u64)
}

fn of_node(node: Node) -> u64 {
    u64::from(node.place)
        .wrapping_mul(10_007)
        .wrapping_add(u64::from(node.index).wrapping_mul(101))
        .wrapping_add(u64::from(node.leaf))
}

/// How many references there are, and a sum over the members of the relation, by which two are compared.
#[derive(Clone, Copy)]
struct Totals {
    references: u64,
    sum: u64,
}

// And a reference of what has this number of its own.
fn with_reference(totals: Totals, points: &Points, spot: u64, y: u32) -> Totals {
    if y as usize >= points.location_count() {
        return totals;
    }
    Totals {
        references: totals.references.wrapping_add(1),
        sum: totals.sum.wrapping_add(
            spot.wrapping_mul(31)
                .wrapping_add(of_location(points.location(y))),
        ),
    }
}

fn of_references(points: &Points) -> Totals {
    let mut totals = Totals {
        references: 0,
        sum: 0,
    };
    for n in 0..points.nodes().len() {
        let spot = of_node(points.nodes().node(n as u32));
        for y in points.refers(n as u32) {
            totals = with_reference(totals, points, spot, y);
        }
    }
    for z in 0..points.location_count() {
        let spot = of_location(points.location(z as u32)).wrapping_mul(7);
        for y in points.refers_at(z as u32) {
            totals = with_reference(totals, points, spot, y);
        }
    }
    totals
}

fn totals_of(points: &Points) -> Totals {
    let mut totals = of_references(points);
    for function in points.live() {
        totals.sum = totals.sum.wrapping_add(u64::from(*function));
    }
    for target in points.targets() {
        totals.sum = totals.sum.wrapping_add(
            u64::from(target.0)
                .wrapping_mul(65_537)
                .wrapping_add(u64::from(target.1)),
        );
    }
    totals
}

fn push_counts(out: &mut Out, points: &Points, totals: Totals) -> Result<(), Memory> {
    out.push_number(totals.references)?;
    out.push_str(" references, ")?;
    out.push_number(points.live().len() as u64)?;
    out.push_str(" live, ")?;
    out.push_number(points.targets().len() as u64)?;
    out.push_str(" targets, sum ")?;
    out.push_number(totals.sum)?;
    out.push_str("\n")
}

fn push_all(out: &mut Out, points: &Points) -> Result<(), Memory> {
    let totals = totals_of(points);
    if totals.references <= MOST_LINES {
        push_points(out, points)?;
    }
    push_counts(out, points, totals)
}

fn push_relation(out: &mut Out, found: Result<Points, PointsFault>) -> Result<(), Memory> {
    match found {
        Ok(points) => push_all(out, &points),
        Err(fault) => out.push_str(text_of(fault)),
    }
}

// The relation, and whether it is the same when it is found in passes.
fn push_both(alloc: Global, out: &mut Out, program: &Program) -> Result<(), Memory> {
    let mut passes = Out::new(alloc);
    push_relation(&mut passes, points_by_passes(alloc, program))?;
    let before = out.bytes().len();
    push_relation(out, points(alloc, program))?;
    match out.bytes().get(before..) {
        Some(found) if found == passes.bytes() => out.push_str("in passes the same\n"),
        _ => out.push_str("in passes another one\n"),
    }
}

/// Adds what is printed.
pub fn push_references(
    alloc: Global,
    out: &mut Out,
    program: &Program,
    form: Form,
) -> Result<(), Memory> {
    match form {
        Form::Passes => push_relation(out, points_by_passes(alloc, program)),
        Form::Both => push_both(alloc, out, program),
        Form::Lines | Form::Count => push_relation(out, points(alloc, program)),
    }
}
