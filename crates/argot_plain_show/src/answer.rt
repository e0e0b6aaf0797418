// What a command prints.
use crate::control::push_control;
use crate::definitions::push_definitions;
use crate::escapes::push_escapes;
use crate::limits::push_limits;
use crate::problems::push_answer;
use crate::references::push_references;
use crate::rows::push_joins;
use crate::words::{Command, Show, word_of};
use argot_plain_text::read_program;
use argot_text::{Memory, Out};
use std::alloc::Global;

// The words that are answered.
fn push_head(out: &mut Out, show: Show, words: &[String]) -> Result<(), Memory> {
    out.push_str("# ")?;
    out.push_str(word_of(show))?;
    for word in words {
        out.push_str(" ")?;
        out.push_str(word.as_str())?;
    }
    out.push_str("\n")
}

/// What is printed of the program of a file.
pub fn of_program(alloc: Global, command: &Command, file: &str, text: &str) -> Result<Out, Memory> {
    let mut out = Out::new(alloc);
    out.push_str("# ")?;
    out.push_str(word_of(command.show))?;
    out.push_str(" ")?;
    out.push_str(file)?;
    out.push_str("\n")?;
    match (read_program(alloc, text)?, command.show) {
        (Some(program), Show::References) => {
            push_references(alloc, &mut out, &program, command.form)?;
        }
        (Some(program), Show::Escapes) => {
            push_escapes(alloc, &mut out, &program, command.form)?;
        }
        (Some(program), Show::Control) => push_control(alloc, &mut out, &program)?,
        (Some(program), _) => push_definitions(alloc, &mut out, &program, command.form)?,
        (None, _) => out.push_str("no program\n")?,
    }
    Ok(out)
}

/// What is printed of a configuration and a program.
pub fn of_problems(
    alloc: Global,
    command: &Command,
    config: &str,
    program: &str,
) -> Result<Out, Memory> {
    let mut out = Out::new(alloc);
    push_head(&mut out, command.show, command.words.as_slice())?;
    match read_program(alloc, program)? {
        Some(program) => push_answer(alloc, &mut out, config, &program, command.form)?,
        None => out.push_str("no program\n")?,
    }
    Ok(out)
}

/// What is printed of a command that reads no file.
pub fn of_words(alloc: Global, command: &Command) -> Result<Out, Memory> {
    let mut out = Out::new(alloc);
    push_head(&mut out, command.show, command.words.as_slice())?;
    match command.show {
        Show::Rows => push_joins(alloc, &mut out, command.words.as_slice())?,
        _ => push_limits(alloc, &mut out)?,
    }
    Ok(out)
}
