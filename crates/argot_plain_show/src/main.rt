//! A window for maintainers: prints what stages make of programs that are written down as `argot_plain_text` has them.
//!
//! The words are commands, one behind the other; each prints its own words behind `#`, and then its answer:
//!
//!     definitions [-count] FILE..             reaching definitions (`definitions.rt` has the form of the lines)
//!     references [-passes | -both] FILE..     references, live functions and targets: by the worklist, in passes, or by
//!                                             both, compared (`relation.rt`)
//!     escapes [-count] FILE..                 which sites escape (`escapes.rt`)
//!     control FILE..                          which reads may come after which writes (`control.rt`)
//!     limits                                  references of programs at the limits and one over (`limits.rt`)
//!     problems [-count] CONFIG FILE           what a configuration, or an empty file, asks of a program (`problems.rt`)
//!     rows ROWS COLUMNS ROUNDS                how many joins change a row of a table (`rows.rt`)
//!
//! The scripts of `bench/` time it.
#![tactic(auto)]

mod answer;
mod control;
mod definitions;
mod escapes;
mod finding;
mod limits;
mod problems;
mod references;
mod relation;
mod rows;
mod words;

use crate::answer::{of_problems, of_program, of_words};
use crate::words::{Command, Show, read_commands};
use argot_text::{Memory, Out};
use std::io::Write;
use std::{fs, io};

#[cfg(test)]
mod tests;

fn print(rt: &HostRuntime, found: Result<Out, Memory>) -> io::Result<()> {
    match found {
        Ok(out) => rt.stdout().write_all(out.bytes()),
        Err(Memory) => rt.stdout().write_all(b"out of memory\n"),
    }
}

fn show_programs(rt: &HostRuntime, command: &Command) -> io::Result<()> {
    for file in &command.words {
        let text = fs::read_to_string(rt, file.as_str())?;
        print(
            rt,
            of_program(rt.alloc(), command, file.as_str(), text.as_str()),
        )?;
    }
    Ok(())
}

fn show_problems(rt: &HostRuntime, command: &Command) -> io::Result<()> {
    let [config, program] = command.words.as_slice() else {
        return rt.stdout().write_all(b"two files are wanted\n");
    };
    let config = fs::read_to_string(rt, config.as_str())?;
    let program = fs::read_to_string(rt, program.as_str())?;
    print(
        rt,
        of_problems(rt.alloc(), command, config.as_str(), program.as_str()),
    )
}

fn main(rt: HostRuntime) -> io::Result<()> {
    for command in &read_commands(&rt)? {
        match command.show {
            Show::Definitions | Show::References | Show::Escapes | Show::Control => {
                show_programs(&rt, command)?;
            }
            Show::Problems => show_problems(&rt, command)?,
            Show::Limits | Show::Rows => print(&rt, of_words(rt.alloc(), command))?,
        }
    }
    Ok(())
}
