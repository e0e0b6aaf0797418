// What is printed of a program's control order: a line for each pair of a place that writes memory and one that reads it and
// may come after, as `3 7`, and then how many there are.
use crate::finding::points;
use argot_control::{Control, control};
use argot_plain::Program;
use argot_points::PointsFault;
use argot_text::{Memory, Out};
use std::alloc::Global;

// Adds the pairs of a place that writes; how many there are.
fn push_followers(out: &mut Out, order: &Control, a: u32, places: u32) -> Result<u64, Memory> {
    let mut count = 0u64;
    for b in 0..places {
        if order.follows(a, b) {
            count = count.wrapping_add(1);
            out.push_number(u64::from(a))?;
            out.push_str(" ")?;
            out.push_number(u64::from(b))?;
            out.push_str("\n")?;
        }
    }
    Ok(count)
}

// Adds all pairs.
fn push_pairs(out: &mut Out, order: &Control, places: u32) -> Result<(), Memory> {
    let mut count = 0u64;
    for a in 0..places {
        count = count.wrapping_add(push_followers(out, order, a, places)?);
    }
    out.push_number(count)?;
    out.push_str(" pairs\n")
}

/// Adds what is printed.
pub fn push_control(alloc: Global, out: &mut Out, program: &Program) -> Result<(), Memory> {
    let Ok(places) = u32::try_from(program.len()) else {
        return Err(Memory);
    };
    match points(alloc, program) {
        Ok(found) => {
            let order = control(alloc, program, &found)?;
            push_pairs(out, &order, places)
        }
        Err(PointsFault::Memory) => Err(Memory),
        Err(_) => out.push_str("over a limit\n"),
    }
}
