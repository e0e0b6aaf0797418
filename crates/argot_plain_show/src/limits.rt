// Programs of given sizes, and what is found of those at the limits and one over.
use crate::references::push_references;
use crate::words::Form;
use argot_plain_text::read_program;
use argot_text::{Memory, Out};
use std::alloc::Global;

/// How many nodes and locations a program has.
#[derive(Clone, Copy)]
struct Size {
    nodes: u32,
    locations: u32,
}

/// So many leaves a register has at most.
const MOST_LEAVES: u32 = 4_096;

/// So many locations a site has at most here.
const MOST_PATHS: u32 = 256;

// So many leaf paths, as `f0,f1,f2`.
fn leaves(alloc: Global, count: u32) -> Result<String, Memory> {
    if count == 0 {
        return Ok(String::from_str(alloc, "none")?);
    }
    let mut text = String::from_str(alloc, "f0")?;
    for n in 1..count {
        let leaf = format!(in alloc; ",f{n}")?;
        text.push_str(leaf.as_str())?;
    }
    Ok(text)
}

// A function that puts values together, which have so many leaves in all: each is a node.
fn push_function(alloc: Global, text: &mut String, nodes: u32) -> Result<(), Memory> {
    let joins = nodes / MOST_LEAVES;
    let (exit, leave) = (joins + 2, joins + 3);
    let full = leaves(alloc, MOST_LEAVES)?;
    let rest = leaves(alloc, nodes % MOST_LEAVES)?;
    let head = format!(in alloc;
        "function entry 0 {exit} {leave} 0 0 own - - - - {full} {rest}\n"
    )?;
    text.push_str(head.as_str())?;
    text.push_str("  goto 1\n")?;
    for _ in 0..joins {
        text.push_str("  join 0\n")?;
    }
    text.push_str("  join 1\n  rundefers\n  leave\n")?;
    Ok(())
}

// A package variable that has so many leaves: the site has a location for each and one for the whole.
fn push_variable(
    alloc: Global,
    text: &mut String,
    number: u32,
    leaves: &str,
) -> Result<(), Memory> {
    let site = format!(in alloc; "site 0 0 0 {leaves} 21 -\nvariable main::v{number} {number}\n")?;
    text.push_str(site.as_str())?;
    Ok(())
}

// Package variables, whose sites have so many locations in all.
fn push_variables(alloc: Global, text: &mut String, locations: u32) -> Result<(), Memory> {
    let whole = locations / MOST_PATHS;
    let shape = leaves(alloc, MOST_PATHS - 1)?;
    for number in 0..whole {
        push_variable(alloc, text, number, shape.as_str())?;
    }
    let rest = locations % MOST_PATHS;
    if rest > 0 {
        let shape = leaves(alloc, rest - 1)?;
        push_variable(alloc, text, whole, shape.as_str())?;
    }
    Ok(())
}

// What is found of a program of this size.
fn push_outcome(alloc: Global, out: &mut Out, size: Size) -> Result<(), Memory> {
    let mut text = String::from_str(alloc, "file main.go\n")?;
    push_function(alloc, &mut text, size.nodes)?;
    push_variables(alloc, &mut text, size.locations)?;
    out.push_str("# ")?;
    out.push_number(u64::from(size.nodes))?;
    out.push_str(" nodes, ")?;
    out.push_number(u64::from(size.locations))?;
    out.push_str(" locations\n")?;
    match read_program(alloc, text.as_str())? {
        Some(program) => push_references(alloc, out, &program, Form::Lines),
        None => out.push_str("no program\n"),
    }
}

/// What is found of programs at each limit, one over it, and over several, of which the first is told.
pub fn push_limits(alloc: Global, out: &mut Out) -> Result<(), Memory> {
    for (nodes, locations) in [
        (262_144, 1),
        (262_145, 1),
        (262_145, 65_537),
        (0, 65_536),
        (0, 65_537),
        (1, 65_536),
    ] {
        push_outcome(alloc, out, Size { nodes, locations })?;
    }
    Ok(())
}
