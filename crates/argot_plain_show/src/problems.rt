// What a configuration asks of a program, as lines: `problem NUMBER NAME`, with ` with escapes` behind where these are asked for, and for what the problem names
// `source FUNCTION`, `sink FUNCTION`, `sanitizer FUNCTION`, `validator FUNCTION`, `point FUNCTION` and `place PLACE NAME`.
use crate::words::Form;
use argot_config::{Config, ConfigFault, Maker, fallback, problem, read};
use argot_plain::{Problem, Program};
use argot_text::{Memory, Out, Text};
use std::alloc::Global;

fn push_line(out: &mut Out, word: &str, number: u32, name: &str) -> Result<(), Memory> {
    out.push_str(word)?;
    out.push_str(" ")?;
    out.push_number(u64::from(number))?;
    if !name.is_empty() {
        out.push_str(" ")?;
        out.push_str(name)?;
    }
    out.push_str("\n")
}

fn push_functions(out: &mut Out, word: &str, functions: &[u32]) -> Result<(), Memory> {
    for function in functions {
        push_line(out, word, *function, "")?;
    }
    Ok(())
}

fn push_places(out: &mut Out, places: &[(u32, Text)]) -> Result<(), Memory> {
    for (place, name) in places {
        push_line(out, "place", *place, name.as_str())?;
    }
    Ok(())
}

fn push_head(out: &mut Out, made: &Problem) -> Result<(), Memory> {
    out.push_str("problem ")?;
    out.push_number(u64::from(made.number))?;
    out.push_str(" ")?;
    out.push_str(made.name.as_str())?;
    if made.escapes {
        out.push_str(" with escapes")?;
    }
    out.push_str("\n")
}

// Adds the lines of a problem.
fn push_problem(out: &mut Out, made: &Problem) -> Result<(), Memory> {
    push_head(out, made)?;
    push_functions(out, "source", made.sources.as_slice())?;
    push_functions(out, "sink", made.sinks.as_slice())?;
    push_functions(out, "sanitizer", made.sanitizers.as_slice())?;
    push_functions(out, "validator", made.validators.as_slice())?;
    push_functions(out, "point", made.points.as_slice())?;
    push_places(out, made.source_places.as_slice())
}

fn push_size(out: &mut Out, word: &str, size: usize) -> Result<(), Memory> {
    out.push_str(word)?;
    out.push_str(" ")?;
    out.push_number(size as u64)?;
    out.push_str("\n")
}

fn push_count(out: &mut Out, made: &Problem) -> Result<(), Memory> {
    push_size(out, "sources", made.sources.len())?;
    push_size(out, "sinks", made.sinks.len())?;
    push_size(out, "sanitizers", made.sanitizers.len())?;
    push_size(out, "validators", made.validators.len())?;
    push_size(out, "points", made.points.len())?;
    push_size(out, "places", made.source_places.len())
}

// Adds the lines of every problem that the configuration asks, or how many there are.
fn push_problems(
    alloc: Global,
    out: &mut Out,
    config: &Config,
    program: &Program,
    form: Form,
) -> Result<(), Memory> {
    for k in 0..config.problems.len() {
        let Ok(number) = u32::try_from(k) else {
            return Err(Memory);
        };
        let made = problem(alloc, config, number, program)?;
        match form {
            Form::Count => push_count(out, &made)?,
            _ => push_problem(out, &made)?,
        }
    }
    Ok(())
}

// The configuration of the text, or of none where it is empty.
fn config_of(alloc: Global, text: &str) -> Result<Config, ConfigFault> {
    if text.is_empty() {
        let config = fallback(alloc)?;
        return Ok(config);
    }
    let mut maker = Maker::new(0);
    read(alloc, text.as_bytes(), &mut maker)
}

/// Adds what is printed.
pub fn push_answer(
    alloc: Global,
    out: &mut Out,
    config: &str,
    program: &Program,
    form: Form,
) -> Result<(), Memory> {
    match config_of(alloc, config) {
        Ok(config) => push_problems(alloc, out, &config, program, form),
        Err(ConfigFault::Memory) => Err(Memory),
        Err(_) => out.push_str("no configuration\n"),
    }
}
