//! A window for maintainers: prints what a stage of argot made of a file.
//!
//! `argot_show tokens FILE` prints for each token its number, kind, start, end and text, and then the offsets of the
//! directives; `argot_show tree FILE` prints for each node of the tree its kind, its first token, its last token and the
//! position of the first, indented by depth; with `-count` before FILE the number of tokens or of nodes alone.
//! `tokens.rt` and `trees.rt` say what the output is. It writes as it goes: beside the file, its tokens and its tree it
//! holds one stretch of lines.
#![tactic(auto)]

mod cursor;
mod lines;
mod nodes;
mod status;
mod tokens;
mod trees;
mod words;

use crate::status::Status;
use crate::tokens::show_tokens;
use crate::trees::show_tree;
use crate::words::{Stage, request_of};
use argot_io::{Files, RealFiles, Sink, StdSink, write_all};
use argot_text::{Memory, Text, Texts};
use std::alloc::Global;
use std::env;
use std::io::ErrorKind;
use std::process::ExitCode;
use std::rt::Env;

#[cfg(test)]
mod deep_tests;

fn main(rt: HostRuntime) -> ExitCode {
    let alloc = rt.alloc();
    let status = match words_of(&rt, alloc) {
        Ok(words) => {
            let mut files = RealFiles::new(&rt);
            let mut out = StdSink::new(rt.stdout());
            let mut err = StdSink::new(rt.stderr());
            show(alloc, &words, &mut files, &mut out, &mut err)
        }
        Err(_) => Status::Memory,
    };
    ExitCode::from(status.code())
}

// What the words ask for.
fn show<F: Files, O: Sink, E: Sink>(
    alloc: Global,
    words: &Texts,
    files: &mut F,
    out: &mut O,
    err: &mut E,
) -> Status {
    match request_of(words) {
        Some(request) => {
            let path = words.get(request.file).as_str();
            match request.stage {
                Stage::Tokens => show_tokens(alloc, path, request.count, files, out, err),
                Stage::Tree => show_tree(alloc, path, request.count, files, out, err),
            }
        }
        None => match write_all(
            err,
            b"argot_show: usage: argot_show tokens|tree [-count] FILE\n",
        ) {
            Ok(()) => Status::Refused,
            Err(_) => Status::WriteFault,
        },
    }
}

// The words after the program's own name. Words that can't be had as text are no request.
fn words_of<R: Env + AllocGlobal>(rt: &R, alloc: Global) -> Result<Texts, Memory> {
    let mut words = Texts::new(alloc);
    match env::args(rt) {
        Ok(args) => {
            for word in args.skip(1) {
                words.push(Text::from_string(word))?;
            }
            Ok(words)
        }
        Err(error) if error.kind() == ErrorKind::OutOfMemory => Err(Memory),
        Err(_) => Ok(words),
    }
}
