// The tree of a file, printed.
ghost use Rattle.std.specs.Prelude.{◌≡◌, ◌⊎◌, ◌<◌, ◌-◌, ◌^◌, [], length, IfOk, IfErr, OnOk, if◌then◌else◌};
ghost use Rattle.argot_io.specs.Faults.{Rose};
ghost use Rattle.argot_io.specs.Taken.{taken_with};
ghost use Rattle.argot_show.specs.TreeLines.{nodes_onto, count_line};
ghost use Rattle.argot_show.specs.Shows.{IsCause, IsFault};
ghost use Rattle.argot_show.specs.ShowsTrees.{IsParsed, IsTreeOutcome, ShowsTree, HasNoTree, IsNested};

use crate::Status;
use crate::cursor::Cursor;
use crate::lines::{put, put_number};
use crate::nodes::{pass_node, put_node, start_of};
use crate::tokens::{Fault, bad_line, place_line, read_file, tell, unread_line, write_text};
use argot_io::{Files, Sink};
use argot_lex::{LexFault, lex};
use argot_parse::{ParseFault, parse};
use argot_text::{Pos, pos_of};
use argot_tree::{Lexed, Token, TreeNode};
use std::alloc::Global;

/// How many bytes are written at once.
const STRETCH: usize = 65536;

/// What the stages made of the file.
#[derive(Clone, Copy, Debug)]
pub enum Outcome {
    /// Its tree was printed.
    Shown,
    /// No token begins there.
    Bad(Pos),
    /// No tree spells its tokens; so far one was wanted.
    Syntax(Pos),
    /// A token is nested too deeply.
    Deep(Pos),
}

// Writes what waits, where it is long enough.
fn flush<O: Sink>(text: &mut Vec<u8>, out: &mut O) -> Result<(), Fault>
    ensures ok { OnOk result (taken_with (O.taken out.new) text.new.items ≡ taken_with (O.taken out.old) text.old.items) }
    ensures fault { IfErr result (IsCause (O.faults out.old) (O.faults out.new)) }
    ensures kept { OnOk result (O.faults out.new ≡ O.faults out.old) }
{
    if text.len() >= STRETCH {
        write_text(out, text.as_slice())?;
        text.clear();
    }
    Ok(())
}

// Writes the lines of the nodes.
fn write_nodes<O: Sink>(
    alloc: Global,
    bytes: &[u8],
    tokens: &[Token],
    nodes: &[TreeNode],
    out: &mut O,
) -> Result<(), Fault>
    requires short { length bytes.now < 2 ^ 32 - 1 }
    ensures ok { OnOk result (O.taken out.new ≡ taken_with (O.taken out.old) (nodes_onto [] bytes.now tokens.now [] nodes.now)) }
    ensures fault { IfErr result (IsCause (O.faults out.old) (O.faults out.new)) }
{
    let mut text = Vec::new(alloc);
    let mut around = Vec::new(alloc);
    let mut cursor = Cursor::start(bytes);
    for node in nodes {
        put_node(
            &mut text,
            bytes,
            tokens,
            around.as_slice(),
            &mut cursor,
            *node,
        )?;
        pass_node(&mut around, *node)?;
        flush(&mut text, out)?;
    }
    write_text(out, text.as_slice())
}

// Writes the number of nodes.
fn write_count<O: Sink>(alloc: Global, nodes: &[TreeNode], out: &mut O) -> Result<(), Fault>
    ensures ok { OnOk result (O.taken out.new ≡ taken_with (O.taken out.old) (count_line (length nodes.now))) }
    ensures fault { IfErr result (IsCause (O.faults out.old) (O.faults out.new)) }
{
    let mut text = Vec::new(alloc);
    put_number(&mut text, nodes.len() as u64)?;
    put(&mut text, b"\n")?;
    write_text(out, text.as_slice())
}

// Writes the lines of the nodes, or their number.
fn write_tree<O: Sink>(
    alloc: Global,
    bytes: &[u8],
    tokens: &[Token],
    nodes: &[TreeNode],
    count: bool,
    out: &mut O,
) -> Result<(), Fault>
    requires short { length bytes.now < 2 ^ 32 - 1 }
    ensures ok { OnOk result (O.taken out.new ≡ taken_with (O.taken out.old) (if count then count_line (length nodes.now) else nodes_onto [] bytes.now tokens.now [] nodes.now)) }
    ensures fault { IfErr result (IsCause (O.faults out.old) (O.faults out.new)) }
{
    if count {
        write_count(alloc, nodes, out)
    } else {
        write_nodes(alloc, bytes, tokens, nodes, out)
    }
}

// Parses the tokens of the file and prints their tree.
fn print_parsed<O: Sink>(
    alloc: Global,
    bytes: &[u8],
    tokens: &Vec<Token>,
    count: bool,
    out: &mut O,
) -> Result<Outcome, Fault>
    requires short { length bytes.now < 2 ^ 32 - 1 }
    ensures ok { IfOk result (IsParsed bytes.now tokens.now.items count (O.taken out.old) (O.taken out.new)) }
    ensures fault { IfErr result (IsCause (O.faults out.old) (O.faults out.new)) }
{
    match parse(alloc, tokens) {
        Ok(tree) => {
            write_tree(alloc, bytes, tokens, tree.nodes.as_slice(), count, out)?;
            Ok(Outcome::Shown)
        }
        Err(ParseFault::Syntax { token }) => Ok(Outcome::Syntax(token_pos(bytes, tokens, token))),
        Err(ParseFault::TooDeep { token }) => Ok(Outcome::Deep(token_pos(bytes, tokens, token))),
        Err(ParseFault::Memory) => Err(Fault::Memory),
    }
}

fn token_pos(bytes: &[u8], tokens: &[Token], token: u32) -> Pos
    requires short { length bytes.now < 2 ^ 32 - 1 }
{
    pos_of(bytes, 0, start_of(bytes, tokens, token as usize))
}

// Reads the file and prints its tree. A file with offsets beyond 32 bits has no room.
fn print_tree<F: Files, O: Sink>(
    alloc: Global,
    path: &str,
    count: bool,
    files: &mut F,
    out: &mut O,
) -> Result<Outcome, Fault>
    ensures ok { IfOk result (IsTreeOutcome (F.told files.old) path.now count (O.taken out.old) (O.taken out.new)) }
    ensures fault { IfErr result (IsFault (F.faults files.old) (F.faults files.new) (O.faults out.old) (O.faults out.new)) }
{
    let contents = read_file(alloc, path, files)?;
    let bytes = contents.as_slice();
    if bytes.len() >= u32::MAX as usize {
        return Err(Fault::Memory);
    }
    match lex(alloc, bytes) {
        Ok(lexed) => print_parsed(alloc, bytes, lexed.tokens.as_vec(), count, out),
        Err(LexFault::Bad { offset }) => Ok(Outcome::Bad(pos_of(bytes, 0, offset as usize))),
        Err(LexFault::Memory) => Err(Fault::Memory),
    }
}

/// Prints the tree of the file at the path, or the number of its nodes.
pub fn show_tree<F: Files, O: Sink, E: Sink>(
    alloc: Global,
    path: &str,
    count: bool,
    files: &mut F,
    out: &mut O,
    err: &mut E,
) -> Status
    ensures shown { result ≡ Status.Shown → ShowsTree (F.told files.old) path.now count (O.taken out.old) (O.taken out.new) }
    ensures refused { result ≡ Status.Refused → HasNoTree (F.told files.old) path.now }
    ensures nested { result ≡ Status.Bound → IsNested (F.told files.old) path.now }
    ensures unread { result ≡ Status.ReadFault → Rose (F.faults files.old) (F.faults files.new) }
    ensures unwritten { result ≡ Status.WriteFault → Rose (O.faults out.old) (O.faults out.new) ⊎ Rose (E.faults err.old) (E.faults err.new) }
{
    match print_tree(alloc, path, count, files, out) {
        Ok(Outcome::Shown) => Status::Shown,
        Ok(Outcome::Bad(pos)) => tell(bad_line(alloc, path, pos), Status::Refused, err),
        Ok(Outcome::Syntax(pos)) => tell(
            place_line(alloc, "", path, pos, ": syntax error\n"),
            Status::Refused,
            err,
        ),
        Ok(Outcome::Deep(pos)) => tell(
            place_line(alloc, "argot: bound: nesting over 200 at ", path, pos, "\n"),
            Status::Bound,
            err,
        ),
        Err(Fault::Read) => tell(unread_line(alloc, path), Status::ReadFault, err),
        Err(Fault::Write) => Status::WriteFault,
        Err(Fault::Memory) => Status::Memory,
    }
}
