// The answer that is due, before anything is written.
ghost use Rattle.std.specs.Prelude.{◌≡◌, ◌++◌, IfOk, codes, string_bytes};
ghost use Rattle.argot_io.specs.Told.{ListsTold};
ghost use Rattle.argot_run.specs.Due.{Due, DueToFolder, main_path, status_of};
ghost use Rattle.argot_run.specs.Listed.{HasMainAlone};

use crate::Status;
use crate::listed::{Sources, sources_of};
use crate::words::asked;
use argot_first::{Answer as Analysis, analyse_first};
use argot_io::{Files, FilesFault};
use argot_text::{Memory, Out, Texts};
use std::alloc::Global;

/// A status with the text that it writes.
#[derive(Debug, Drop)]
pub struct Answer {
    pub status: Status,
    pub text: Out,
}

const USAGE: &str =
    "argot: usage: argot taint|backtrace|escape [-config FILE] [-workers N] DIR, or argot trial [-workers N] COUNT\n";

const NO_MAIN: &str = "argot: no main function in folder .\n";

const NOT_FIRST_FORM: &str = "argot: not of the first form\n";

/// The answer to the words, from what the files say.
pub fn answer_to<F: Files>(alloc: Global, words: &Texts, files: &mut F) -> Result<Answer, Memory>
    ensures { IfOk result (Due words.now
        (record { told = F.told files.old; before = F.faults files.old; now = F.faults files.new; last = F.last files.new })) }
{
    match asked(words) {
        None => fixed(alloc, Status::Refused, USAGE),
        Some(dir) => answer_to_folder(alloc, dir, files),
    }
}

fn answer_to_folder<F: Files>(alloc: Global, dir: &str, files: &mut F) -> Result<Answer, Memory>
    ensures { IfOk result (DueToFolder dir.now
        (record { told = F.told files.old; before = F.faults files.old; now = F.faults files.new; last = F.last files.new })) }
{
    let paths = match files.list(alloc, dir) {
        Ok(paths) => paths,
        Err(FilesFault::Memory) => return Err(Memory),
        Err(FilesFault::Failed) => return naming(alloc, "argot: cannot list ", dir),
    };
    match sources_of(&paths) {
        Sources::None => fixed(alloc, Status::Refused, NO_MAIN),
        Sources::Others => fixed(alloc, Status::Unsupported, NOT_FIRST_FORM),
        Sources::MainAlone => answer_to_main(alloc, dir, &paths, files),
    }
}

// The answer to a folder whose only source is `main.go`.
fn answer_to_main<F: Files>(
    alloc: Global,
    dir: &str,
    _listed: &Texts,
    files: &mut F,
) -> Result<Answer, Memory>
    requires listed { ListsTold (F.told files.old) dir.now _listed.now }
    requires alone { HasMainAlone _listed.now }
    ensures { IfOk result (DueToFolder dir.now
        (record { told = F.told files.old; before = F.faults files.old; now = F.faults files.new; last = F.last files.new })) }
{
    let text = main_path(alloc, dir)?;
    let path = text.as_str();
    let bytes = match files.read(alloc, path) {
        Ok(bytes) => bytes,
        Err(FilesFault::Memory) => return Err(Memory),
        Err(FilesFault::Failed) => return naming(alloc, "argot: cannot read ", path),
    };
    match analyse_first(alloc, bytes.as_slice())? {
        Analysis::Unsupported => fixed(alloc, Status::Unsupported, NOT_FIRST_FORM),
        Analysis::Report { count, text } => Ok(Answer {
            status: status_of(count),
            text,
        }),
    }
}

fn status_of(count: usize) -> Status
    ensures { result ≡ status_of count }
{
    match count {
        0 => Status::Clean,
        _ => Status::Found,
    }
}

fn main_path(alloc: Global, dir: &str) -> Result<String, Memory>
    ensures { IfOk result (λ path. string_bytes path ≡ main_path dir.now) }
{
    let mut path = String::from_str(alloc, dir)?;
    path.push_str("/main.go")?;
    Ok(path)
}

// An answer whose text is known.
fn fixed(alloc: Global, status: Status, text: &str) -> Result<Answer, Memory>
    ensures { IfOk result (λ answer. answer ≡ record { status = status; text = text.now }) }
{
    let mut out = Out::new(alloc);
    out.push_str(text)?;
    Ok(Answer { status, text: out })
}

// A fault of reading, with the path that couldn't be read.
fn naming(alloc: Global, what: &str, path: &str) -> Result<Answer, Memory>
    ensures { IfOk result (λ answer. answer ≡ record { status = Status.ReadFault; text = what.now ++ path.now ++ codes "\n" }) }
{
    let mut out = Out::new(alloc);
    out.push_str(what)?;
    out.push_str(path)?;
    out.push_str("\n")?;
    Ok(Answer {
        status: Status::ReadFault,
        text: out,
    })
}
