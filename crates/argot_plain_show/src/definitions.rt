// What is printed of a program's reaching definitions: a line for each, its place, the place that it reaches and the register,
// where there are at most a thousand, and then how many there are with a sum over them.
use crate::finding::definitions;
use crate::words::Form;
use argot_facts::Defs;
use argot_plain::Program;
use argot_text::{Memory, Out};
use std::alloc::Global;

/// As many lines are printed at most.
const MOST_LINES: usize = 1000;

// A sum over the triples, by which two lists of them are compared.
fn sum_of(found: &Defs) -> u64 {
    let mut sum = 0u64;
    for t in found.as_slice() {
        sum = sum
            .wrapping_add(u64::from(t.0).wrapping_mul(1_000_003))
            .wrapping_add(u64::from(t.1).wrapping_mul(10_007))
            .wrapping_add(u64::from(t.2));
    }
    sum
}

fn push_triple(out: &mut Out, triple: (u32, u32, u32)) -> Result<(), Memory> {
    out.push_number(u64::from(triple.0))?;
    out.push_str(" ")?;
    out.push_number(u64::from(triple.1))?;
    out.push_str(" ")?;
    out.push_number(u64::from(triple.2))?;
    out.push_str("\n")
}

fn push_triples(out: &mut Out, found: &Defs) -> Result<(), Memory> {
    for triple in found.as_slice() {
        push_triple(out, *triple)?;
    }
    Ok(())
}

/// Adds what is printed.
pub fn push_definitions(
    alloc: Global,
    out: &mut Out,
    program: &Program,
    form: Form,
) -> Result<(), Memory> {
    let found = definitions(alloc, program)?;
    if !matches!(form, Form::Count) && found.len() <= MOST_LINES {
        push_triples(out, &found)?;
    }
    out.push_number(found.len() as u64)?;
    out.push_str(" found, sum ")?;
    out.push_number(sum_of(&found))?;
    out.push_str("\n")
}
