// A text, line by line.
use crate::draft::{Draft, start};
use crate::items::{function_of, site_of};
use crate::kinds::kind_of;
use crate::words::{ident_of, number_of};
use argot_plain::{Program, Tag};
use argot_plain_parts::{Parts, program_of};
use argot_text::{Memory, Text};
use std::alloc::Global;

fn push_function(alloc: Global, draft: &mut Draft, words: &[&str]) -> Result<bool, Memory> {
    let Some(function) = function_of(alloc, words)? else {
        return Ok(false);
    };
    draft.functions.push(function)?;
    Ok(true)
}

fn push_site(alloc: Global, draft: &mut Draft, words: &[&str]) -> Result<bool, Memory> {
    let Some(site) = site_of(alloc, words)? else {
        return Ok(false);
    };
    draft.sites.push(site)?;
    Ok(true)
}

fn push_variable(alloc: Global, draft: &mut Draft, name: &str, site: &str) -> Result<bool, Memory> {
    let Some(site) = number_of(site) else {
        return Ok(false);
    };
    let Some(ident) = ident_of(alloc, name)? else {
        return Ok(false);
    };
    let at = start();
    draft.globals.push((ident, at, site))?;
    Ok(true)
}

fn push_method(
    alloc: Global,
    draft: &mut Draft,
    dynamic: &str,
    name: &str,
    function: &str,
) -> Result<bool, Memory> {
    let Some(dynamic) = number_of(dynamic) else {
        return Ok(false);
    };
    let Some(function) = number_of(function) else {
        return Ok(false);
    };
    let name = Text::from_str(alloc, name)?;
    draft.methods.push((dynamic, name, function))?;
    Ok(true)
}

fn push_pair(draft: &mut Draft, a: &str, b: &str) -> Result<bool, Memory> {
    let Some(a) = number_of(a) else {
        return Ok(false);
    };
    let Some(b) = number_of(b) else {
        return Ok(false);
    };
    draft.implements.push((a, b))?;
    Ok(true)
}

fn push_kind(alloc: Global, draft: &mut Draft, words: &[&str]) -> Result<bool, Memory> {
    let Some(kind) = kind_of(alloc, words)? else {
        return Ok(false);
    };
    draft.push_kind(alloc, kind)?;
    Ok(true)
}

fn push_tag(alloc: Global, draft: &mut Draft, name: &str, global: bool) -> Result<bool, Memory> {
    let Some(ident) = ident_of(alloc, name)? else {
        return Ok(false);
    };
    draft.tags.push(Tag { global, ident })?;
    Ok(true)
}

fn push_file(alloc: Global, draft: &mut Draft, path: &str) -> Result<bool, Memory> {
    draft.files.push(Text::from_str(alloc, path)?)?;
    Ok(true)
}

// Adds what the words of a line stand for; whether they stand for something.
fn push_words(alloc: Global, draft: &mut Draft, words: &[&str]) -> Result<bool, Memory> {
    match words {
        [] => Ok(true),
        ["file", path] => push_file(alloc, draft, *path),
        ["function", rest @ ..] => push_function(alloc, draft, rest),
        ["site", rest @ ..] => push_site(alloc, draft, rest),
        ["variable", name, site] => push_variable(alloc, draft, *name, *site),
        ["method", dynamic, name, function] => {
            push_method(alloc, draft, *dynamic, *name, *function)
        }
        ["tag", "field", name] => push_tag(alloc, draft, *name, false),
        ["tag", "variable", name] => push_tag(alloc, draft, *name, true),
        ["implements", a, b] => push_pair(draft, *a, *b),
        _ => push_kind(alloc, draft, words),
    }
}

fn push_line(alloc: Global, draft: &mut Draft, line: &str) -> Result<bool, Memory> {
    if line.starts_with('#') {
        return Ok(true);
    }
    let words: Vec<&str> = line.split_whitespace().collect(alloc)?;
    push_words(alloc, draft, words.as_slice())
}

/// The parts that a text writes down; None where a line says nothing.
pub fn read_parts(alloc: Global, text: &str) -> Result<Option<Parts>, Memory> {
    let mut draft = Draft::new(alloc);
    for line in text.lines() {
        if !push_line(alloc, &mut draft, line)? {
            return Ok(None);
        }
    }
    Ok(Some(draft.into_parts()))
}

/// The program that a text writes down; None where a line says nothing or the parts make no program.
pub fn read_program(alloc: Global, text: &str) -> Result<Option<Program>, Memory> {
    let Some(parts) = read_parts(alloc, text)? else {
        return Ok(None);
    };
    Ok(program_of(parts))
}
