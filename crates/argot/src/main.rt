//! The program `argot`: the real files and streams, handed to the top call, and its status as the number that the
//! program ends with. All that it does otherwise is done by `argot_run::argot`.
#![tactic(auto)]

ghost use Rattle.std.specs.Prelude.{◌≡◌};
ghost use Rattle.std.specs.Process.{exit_status};
ghost use Rattle.argot_run.specs.Codes.{code_of};

use argot_io::{RealFiles, StdSink};
use argot_run::{Status, argot};
use argot_text::{Memory, Text, Texts};
use std::alloc::Global;
use std::env;
use std::io::ErrorKind;
use std::process::ExitCode;
use std::rt::Env;

fn main(rt: HostRuntime) -> ExitCode {
    let alloc = rt.alloc();
    let status = match words(&rt, alloc) {
        Ok(words) => {
            let mut files = RealFiles::new(&rt);
            let mut out = StdSink::new(rt.stdout());
            let mut err = StdSink::new(rt.stderr());
            argot(&rt, alloc, &words, &mut files, &mut out, &mut err)
        }
        Err(_) => Status::Memory,
    };
    ended(status)
}

// The end of the program with the number of the status.
fn ended(status: Status) -> ExitCode
    ensures { exit_status result ≡ code_of status }
{
    ExitCode::from(status.code())
}

// The words after the program's own name. Words that can't be had as text are no request.
fn words<R: Env + AllocGlobal>(rt: &R, alloc: Global) -> Result<Texts, Memory> {
    let mut words = Texts::new(alloc);
    match env::args(rt) {
        Ok(args) => {
            for word in args.skip(1) {
                words.push(Text::from_string(word))?;
            }
            Ok(words)
        }
        Err(error) if error.kind() == ErrorKind::OutOfMemory => Err(Memory),
        Err(_) => Ok(words),
    }
}
