// What the words behind the program's name ask for.
use std::rt::Env;
use std::{env, io};

/// What is shown.
#[derive(Clone, Copy)]
pub enum Show {
    /// The reaching definitions of programs.
    Definitions,
    /// References, live functions and targets of programs.
    References,
    /// Which sites of programs escape.
    Escapes,
    /// Control order of programs.
    Control,
    /// References of programs at the limits.
    Limits,
    /// What a configuration asks of a program.
    Problems,
    /// How many joins change a row of a table.
    Rows,
}

/// In which form.
#[derive(Clone, Copy)]
pub enum Form {
    /// As lines; references are found by the worklist.
    Lines,
    /// How many there are.
    Count,
    /// As lines; references are found in passes.
    Passes,
    /// As lines, and whether passes find the same.
    Both,
}

/// A command.
#[derive(Drop)]
pub struct Command {
    pub show: Show,
    pub form: Form,
    /// Its files or numbers.
    pub words: Vec<String>,
}

/// The word of a command.
pub fn word_of(show: Show) -> &'static str {
    match show {
        Show::Definitions => "definitions",
        Show::References => "references",
        Show::Escapes => "escapes",
        Show::Control => "control",
        Show::Limits => "limits",
        Show::Problems => "problems",
        Show::Rows => "rows",
    }
}

fn show_of(word: &str) -> Option<Show> {
    match word {
        "definitions" => Some(Show::Definitions),
        "references" => Some(Show::References),
        "escapes" => Some(Show::Escapes),
        "control" => Some(Show::Control),
        "limits" => Some(Show::Limits),
        "problems" => Some(Show::Problems),
        "rows" => Some(Show::Rows),
        _ => None,
    }
}

fn form_of(word: &str) -> Option<Form> {
    match word {
        "-count" => Some(Form::Count),
        "-passes" => Some(Form::Passes),
        "-both" => Some(Form::Both),
        _ => None,
    }
}

// Adds a word to a command.
fn add(command: &mut Command, word: String) -> io::Result<()> {
    match form_of(word.as_str()) {
        Some(form) => command.form = form,
        None => command.words.push(word)?,
    }
    Ok(())
}

/// The commands; words before the first are passed over.
pub fn read_commands<R: Env + AllocGlobal>(rt: &R) -> io::Result<Vec<Command>> {
    let mut commands: Vec<Command> = Vec::new(rt.alloc());
    for word in env::args(rt)?.skip(1) {
        if let Some(show) = show_of(word.as_str()) {
            commands.push(Command {
                show,
                form: Form::Lines,
                words: Vec::new(rt.alloc()),
            })?;
        } else if let Some(command) = commands.last_mut() {
            add(command, word)?;
        }
    }
    Ok(commands)
}
