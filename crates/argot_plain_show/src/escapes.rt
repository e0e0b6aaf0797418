// What is printed of a program's escaping sites: `escapes SITE` for each, and then how many there are.
use crate::finding::escaping;
use crate::references::text_of;
use crate::words::Form;
use argot_plain::Program;
use argot_text::{Memory, Out};
use std::alloc::Global;

fn push_site(out: &mut Out, site: usize) -> Result<(), Memory> {
    out.push_str("escapes ")?;
    out.push_number(site as u64)?;
    out.push_str("\n")
}

fn push_lines(out: &mut Out, escaping: &[bool]) -> Result<(), Memory> {
    for site in 0..escaping.len() {
        if escaping[site] {
            push_site(out, site)?;
        }
    }
    Ok(())
}

fn push_sites(out: &mut Out, escaping: &[bool], form: Form) -> Result<(), Memory> {
    if let Form::Lines = form {
        push_lines(out, escaping)?;
    }
    out.push_number(escaping.iter().filter(|escapes| **escapes).count() as u64)?;
    out.push_str(" escape\n")
}

/// Adds what is printed.
pub fn push_escapes(
    alloc: Global,
    out: &mut Out,
    program: &Program,
    form: Form,
) -> Result<(), Memory> {
    match escaping(alloc, program) {
        Ok(sites) => push_sites(out, sites.as_slice(), form),
        Err(fault) => out.push_str(text_of(fault)),
    }
}
