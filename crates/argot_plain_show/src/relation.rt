// The lines: `node PLACE INDEX LEAF refers to site SITE PATH`, `site SITE PATH refers to site SITE PATH`, `live FUNCTION`
// and `target PLACE FUNCTION`, where a path is `-` or its steps with dots between them, as `argot_plain_text` has them.
use argot_facts::{Loc, Node, Points};
use argot_text::{Memory, Out, PathStep};

fn push_step(out: &mut Out, step: PathStep) -> Result<(), Memory> {
    match step {
        PathStep::Field(n) => {
            out.push_str("f")?;
            out.push_number(u64::from(n))
        }
        PathStep::Element => out.push_str("e"),
        PathStep::Key => out.push_str("k"),
        PathStep::Value => out.push_str("v"),
        PathStep::Channel => out.push_str("c"),
        PathStep::Capture(n) => {
            out.push_str("x")?;
            out.push_number(u64::from(n))
        }
    }
}

fn push_path(out: &mut Out, path: &[PathStep]) -> Result<(), Memory> {
    if path.is_empty() {
        return out.push_str("-");
    }
    for n in 0..path.len() {
        if n > 0 {
            out.push_str(".")?;
        }
        push_step(out, path[n])?;
    }
    Ok(())
}

fn push_location(out: &mut Out, location: &Loc) -> Result<(), Memory> {
    out.push_str("site ")?;
    out.push_number(u64::from(location.site))?;
    out.push_str(" ")?;
    push_path(out, location.path.as_slice())
}

// Numbers with blanks between them, behind a word.
fn push_numbers(out: &mut Out, word: &str, numbers: &[u32]) -> Result<(), Memory> {
    out.push_str(word)?;
    for number in numbers {
        out.push_str(" ")?;
        out.push_number(u64::from(*number))?;
    }
    Ok(())
}

fn push_node(out: &mut Out, node: Node) -> Result<(), Memory> {
    push_numbers(out, "node", &[node.place, node.index, node.leaf])
}

// To what a node or a location refers, behind it.
fn push_target(out: &mut Out, points: &Points, y: u32) -> Result<(), Memory> {
    if y as usize >= points.location_count() {
        return Ok(());
    }
    out.push_str(" refers to ")?;
    push_location(out, points.location(y))?;
    out.push_str("\n")
}

fn push_refers(out: &mut Out, points: &Points) -> Result<(), Memory> {
    for n in 0..points.nodes().len() {
        for y in points.refers(n as u32) {
            push_node(out, points.nodes().node(n as u32))?;
            push_target(out, points, y)?;
        }
    }
    for z in 0..points.location_count() {
        for y in points.refers_at(z as u32) {
            push_location(out, points.location(z as u32))?;
            push_target(out, points, y)?;
        }
    }
    Ok(())
}

/// Adds a line for each member of the relation.
pub fn push_points(out: &mut Out, points: &Points) -> Result<(), Memory> {
    push_refers(out, points)?;
    for function in points.live() {
        push_numbers(out, "live", &[*function])?;
        out.push_str("\n")?;
    }
    for target in points.targets() {
        push_numbers(out, "target", &[target.0, target.1])?;
        out.push_str("\n")?;
    }
    Ok(())
}
