// The tokens of a file, printed.
ghost use Rattle.std.specs.Prelude.{◌≡◌, ◌⊎◌, ◌<◌, ◌^◌, [], Err, length, take, MatchResult, IfOk, IfErr, OnOk};
ghost use Rattle.argot_io.specs.Faults.{Rose};
ghost use Rattle.argot_io.specs.Taken.{taken_with};
ghost use Rattle.argot_show.specs.Lines.{lines_onto, shown, counted};
ghost use Rattle.argot_io.specs.Told.{ReadsTold};
ghost use Rattle.argot_show.specs.Shows.{IsCause, IsFault, IsOutcome, IsTold, ShowsTokens, SpellsNothing};

use crate::Status;
use crate::lines::{directives_line, lines_of, put, put_number};
use argot_io::{Files, FilesFault, Sink, write_all};
use argot_lex::{LexFault, lex};
use argot_text::{Memory, Out, Pos, Text, Texts, pos_of};
use argot_tree::{Lexed, Token};
use std::alloc::Global;

/// How many tokens are printed at once.
const STRETCH: usize = 1024;

/// Why nothing more was printed.
#[derive(Debug, Drop)]
pub enum Fault {
    /// The file couldn't be read.
    Read,
    /// The output couldn't be written.
    Write,
    Memory,
}

impl From<Memory> for Fault {
    ghost use Rattle.std.specs.Prelude.{◌≡◌};
    ghost use Rattle.argot_show.specs.declared.tokens.Fault.TheVariants as fault;

    ghost from_gives = { λ _ e. e ≡ fault.Memory };

    fn from(_: Memory) -> Fault {
        Fault::Memory
    }
}

/// Writes a text whole.
pub fn write_text<O: Sink>(out: &mut O, text: &[u8]) -> Result<(), Fault>
    ensures ok { OnOk result (O.taken out.new ≡ taken_with (O.taken out.old) text.now) }
    ensures fault { IfErr result (IsCause (O.faults out.old) (O.faults out.new)) }
    ensures kept { OnOk result (O.faults out.new ≡ O.faults out.old) }
{
    match write_all(out, text) {
        Ok(()) => Ok(()),
        Err(_) => Err(Fault::Write),
    }
}

// Writes the lines of the tokens, a stretch at a time.
fn write_lines<O: Sink>(
    alloc: Global,
    bytes: &[u8],
    tokens: &[Token],
    out: &mut O,
) -> Result<(), Fault>
    ensures ok { OnOk result (O.taken out.new ≡ taken_with (O.taken out.old) (lines_onto [] bytes.now 0 tokens.now)) }
    ensures fault { IfErr result (IsCause (O.faults out.old) (O.faults out.new)) }
    ensures kept { OnOk result (O.faults out.new ≡ O.faults out.old) }
{
    let mut at = 0;
    while at < tokens.len() {
        let (_, behind) = tokens.split_at(at);
        let (stretch, _) = behind.split_at(STRETCH.min(behind.len()));
        let text = lines_of(alloc, bytes, at as u64, stretch)?;
        write_text(out, text.as_slice())?;
        at += stretch.len();
    }
    Ok(())
}

// Writes all lines of a file.
fn write_file<O: Sink>(alloc: Global, bytes: &[u8], lexed: &Lexed, out: &mut O) -> Result<(), Fault>
    ensures ok { OnOk result (O.taken out.new ≡ taken_with (O.taken out.old) (shown bytes.now lexed.now)) }
    ensures fault { IfErr result (IsCause (O.faults out.old) (O.faults out.new)) }
{
    write_lines(alloc, bytes, lexed.tokens.as_slice(), out)?;
    let line = directives_line(alloc, lexed.directives.as_slice())?;
    write_text(out, line.as_slice())
}

// Writes the number of tokens.
fn write_count<O: Sink>(alloc: Global, lexed: &Lexed, out: &mut O) -> Result<(), Fault>
    ensures ok { OnOk result (O.taken out.new ≡ taken_with (O.taken out.old) (counted lexed.now)) }
    ensures fault { IfErr result (IsCause (O.faults out.old) (O.faults out.new)) }
{
    let mut text = Vec::new(alloc);
    put_number(&mut text, lexed.tokens.len() as u64)?;
    put(&mut text, b"\n")?;
    write_text(out, text.as_slice())
}

/// What the files hold at the path.
pub fn read_file<F: Files>(alloc: Global, path: &str, files: &mut F) -> Result<Vec<u8>, Fault>
    ensures ok { IfOk result (λ bytes. ReadsTold (F.told files.old) path.now bytes.items) }
    ensures fault { IfErr result (λ e. e ≡ Fault.Memory ⊎ ((e ≡ Fault.Read) × Rose (F.faults files.old) (F.faults files.new))) }
{
    match files.read(alloc, path) {
        Ok(bytes) => Ok(bytes),
        Err(FilesFault::Failed) => Err(Fault::Read),
        Err(FilesFault::Memory) => Err(Fault::Memory),
    }
}

/// What the stage made of the file.
#[derive(Clone, Copy, Debug)]
pub enum Outcome {
    /// Its tokens were printed.
    Shown,
    /// No token begins there.
    Bad(Pos),
}

// Reads the file and prints its tokens. A file with offsets beyond 32 bits has no room.
fn print_tokens<F: Files, O: Sink>(
    alloc: Global,
    path: &str,
    count: bool,
    files: &mut F,
    out: &mut O,
) -> Result<Outcome, Fault>
    ensures ok { IfOk result (IsOutcome (F.told files.old) path.now count (O.taken out.old) (O.taken out.new)) }
    ensures fault { IfErr result (IsFault (F.faults files.old) (F.faults files.new) (O.faults out.old) (O.faults out.new)) }
{
    let contents = read_file(alloc, path, files)?;
    let bytes = contents.as_slice();
    if bytes.len() >= u32::MAX as usize {
        return Err(Fault::Memory);
    }
    match lex(alloc, bytes) {
        Ok(lexed) => {
            if count {
                write_count(alloc, &lexed, out)?;
            } else {
                write_file(alloc, bytes, &lexed, out)?;
            }
            Ok(Outcome::Shown)
        }
        Err(LexFault::Bad { offset }) => Ok(Outcome::Bad(pos_of(bytes, 0, offset as usize))),
        Err(LexFault::Memory) => Err(Fault::Memory),
    }
}

/// A line that names a place of the file, with a text before it and one behind.
pub fn place_line(
    alloc: Global,
    before: &str,
    path: &str,
    pos: Pos,
    behind: &str,
) -> Result<Out, Memory> {
    let mut names = Texts::new(alloc);
    names.push(Text::from_str(alloc, path)?)?;
    let mut line = Out::new(alloc);
    line.push_str(before)?;
    if (pos.file as usize) < names.len() {
        line.push_pos(&names, pos)?;
    }
    line.push_str(behind)?;
    Ok(line)
}

/// The line that tells where no token begins.
pub fn bad_line(alloc: Global, path: &str, pos: Pos) -> Result<Out, Memory> {
    place_line(alloc, "", path, pos, ": no token begins here\n")
}

/// The line that tells that a file couldn't be read.
pub fn unread_line(alloc: Global, path: &str) -> Result<Out, Memory> {
    let mut line = Out::new(alloc);
    line.push_str("argot_show: cannot read ")?;
    line.push_str(path)?;
    line.push_str("\n")?;
    Ok(line)
}

/// Tells a person why; the status is that of the cause, unless the line can't be written.
pub fn tell<E: Sink>(line: Result<Out, Memory>, status: Status, err: &mut E) -> Status
    ensures { IsTold status (E.faults err.old) (E.faults err.new) result }
{
    match line {
        Ok(line) => match write_all(err, line.bytes()) {
            Ok(()) => status,
            Err(_) => Status::WriteFault,
        },
        Err(_) => Status::Memory,
    }
}

/// Prints the tokens of the file at the path, or their number.
pub fn show_tokens<F: Files, O: Sink, E: Sink>(
    alloc: Global,
    path: &str,
    count: bool,
    files: &mut F,
    out: &mut O,
    err: &mut E,
) -> Status
    ensures shown { result ≡ Status.Shown → ShowsTokens (F.told files.old) path.now count (O.taken out.old) (O.taken out.new) }
    ensures refused { result ≡ Status.Refused → SpellsNothing (F.told files.old) path.now }
    ensures unread { result ≡ Status.ReadFault → Rose (F.faults files.old) (F.faults files.new) }
    ensures unwritten { result ≡ Status.WriteFault → Rose (O.faults out.old) (O.faults out.new) ⊎ Rose (E.faults err.old) (E.faults err.new) }
{
    match print_tokens(alloc, path, count, files, out) {
        Ok(Outcome::Shown) => Status::Shown,
        Ok(Outcome::Bad(pos)) => tell(bad_line(alloc, path, pos), Status::Refused, err),
        Err(Fault::Read) => tell(unread_line(alloc, path), Status::ReadFault, err),
        Err(Fault::Write) => Status::WriteFault,
        Err(Fault::Memory) => Status::Memory,
    }
}
