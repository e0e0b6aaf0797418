// Blocks and lists of statements, and labels.
#![tactic(auto, using(argot_parse_reader::proofs::Steps::read_more, argot_parse_reader::proofs::Steps::read_none, argot_parse_reader::proofs::Grows::kept))]

ghost use Rattle.std.specs.Prelude.{◌<◌, ◌+◌, length, IfOk, []};
ghost use Rattle.argot_tree.specs.Grammar.{Block, Stmts, MaybeLabel};
ghost use Rattle.argot_parse_reader.specs.Reading.{The, Gives};
ghost use Rattle.argot_parse_reader.specs.StatementReader.{label_by};
ghost use Rattle.argot_parse_reader.specs.Reader.{read};

use crate::fields::closed_by_brace;
use crate::statements::stmt;
use argot_parse_tokens::{
    Writer, close, close_all, ends_stmt_at, ends_stmts_at, expect, is_label, is_mark, is_name,
    missing, put, semicolon_at, undo,
};
use argot_text::Memory;
use argot_tree::{Mark, NodeKind, Token};

/// Statements in their braces.
#[cycle(reading)]
pub fn block(
    tokens: &[Token],
    out: &mut Writer,
    fuel: usize,
    at: usize,
) -> Result<Option<usize>, Memory>
    ensures { IfOk result (λ r. Gives out.old.posts.items r out.new.posts.items (read tokens.now fuel (The Block) at out.old.posts.items)) }
{
    if fuel == 0 {
        return Ok(None);
    }
    if !is_mark(tokens, at, Mark::OpenBrace) {
        missing(out, at);
        return Ok(None);
    }
    let mark = out.posts.len();
    let Some(inner) = stmts(tokens, out, fuel - 1, at + 1)? else {
        return Ok(None);
    };
    let Some(to) = expect(tokens, out, inner, Mark::CloseBrace, mark) else {
        return Ok(None);
    };
    close(out, NodeKind::Block, at, to, mark)?;
    Ok(Some(to))
}

/// Statements up to the brace or the clause behind them.
#[cycle(reading)]
pub fn stmts(
    tokens: &[Token],
    out: &mut Writer,
    steps: usize,
    first: usize,
) -> Result<Option<usize>, Memory>
    ensures { IfOk result (λ r. Gives out.old.posts.items r out.new.posts.items (read tokens.now steps (The Stmts) first out.old.posts.items)) }
{
    let mark = out.posts.len();
    let mut at = first;
    let mut fuel = steps;
    while fuel > 0 {
        fuel -= 1;
        if ends_stmts_at(tokens, at) {
            return Ok(Some(at));
        }
        if semicolon_at(tokens, at) {
            put(out, NodeKind::Empty, at, at)?;
            at += 1;
            continue;
        }
        let Some(to) = stmt(tokens, out, fuel, at)? else {
            undo(out, mark);
            return Ok(None);
        };
        if !semicolon_at(tokens, to) {
            return Ok(closed_by_brace(tokens, out, to, mark));
        }
        at = to + 1;
    }
    undo(out, mark);
    Ok(None)
}

/// A statement with its labels.
#[cycle(reading)]
pub fn labelled(
    tokens: &[Token],
    out: &mut Writer,
    steps: usize,
    first: usize,
) -> Result<Option<usize>, Memory>
    requires { first + 1 < length tokens.now }
    ensures { IfOk result (λ r. Gives out.old.posts.items r out.new.posts.items (label_by tokens.now (read tokens.now steps) [] first out.old.posts.items)) }
{
    let mark = out.posts.len();
    let mut begun = Vec::new(out.alloc);
    begun.push((first, mark))?;
    put(out, NodeKind::DeclName, first, first + 1)?;
    let mut at = first + 2;
    let mut fuel = steps;
    while fuel > 0 {
        fuel -= 1;
        if is_label(tokens, at) {
            begun.push((at, out.posts.len()))?;
            put(out, NodeKind::DeclName, at, at + 1)?;
            at += 2;
            continue;
        }
        if ends_stmt_at(tokens, at) {
            put(out, NodeKind::Empty, at, at)?;
            close_all(out, NodeKind::Labeled, begun, at)?;
            return Ok(Some(at));
        }
        let Some(to) = stmt(tokens, out, fuel, at)? else {
            undo(out, mark);
            return Ok(None);
        };
        close_all(out, NodeKind::Labeled, begun, to)?;
        return Ok(Some(to));
    }
    undo(out, mark);
    Ok(None)
}

pub fn maybe_label(
    tokens: &[Token],
    out: &mut Writer,
    fuel: usize,
    at: usize,
) -> Result<Option<usize>, Memory>
    ensures { IfOk result (λ r. Gives out.old.posts.items r out.new.posts.items (read tokens.now fuel (The MaybeLabel) at out.old.posts.items)) }
{
    if fuel == 0 {
        return Ok(None);
    }
    if !is_name(tokens, at) {
        return Ok(Some(at));
    }
    put(out, NodeKind::LabelUse, at, at + 1)?;
    Ok(Some(at + 1))
}
