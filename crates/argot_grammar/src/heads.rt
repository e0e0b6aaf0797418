// Heads of statements, and `if`.
#![tactic(auto, using(argot_parse_reader::proofs::Steps::read_more, argot_parse_reader::proofs::Steps::read_none, argot_parse_reader::proofs::Grows::kept))]

ghost use Rattle.std.specs.Prelude.{◌≡◌, ◌≤◌, IfOk, OnOk, IfSome, IfNone, vec_len, take, [], true, false};
ghost use Rattle.argot_parse_reader.specs.Reading.{Ifs, Gives, Settles};
ghost use Rattle.argot_parse_reader.specs.StatementReader.{put_empty, listed_by, opened_by, opening_by, condition_behind_by, condition_by};
ghost use Rattle.argot_parse_reader.specs.Reader.{read};
ghost use Rattle.argot_tree.specs.TokensAt.{kind_at, is_semicolon};

use crate::blocks::block;
use crate::expressions::level;
use crate::statements::{assign, more_expressions_behind, simple, simple_behind};
use argot_parse_tokens::{
    Writer, assign_at, close, close_all, defines, guards, is_mark, is_word, missing,
    paren_behind_first_guard, put, range_behind_define, ranges, semicolon_at, undo,
    values_behind_names,
};
use argot_text::Memory;
use argot_tree::{Keyword, Mark, NodeKind, Token};

/// A node over an empty statement.
pub fn put_empty(out: &mut Writer, kind: NodeKind, at: usize) -> Result<(), Memory>
    ensures { OnOk result (out.new.posts.items ≡ put_empty kind at out.old.posts.items) }
{
    let mark = out.posts.len();
    put(out, NodeKind::Empty, at, at)?;
    close(out, kind, at, at, mark)
}

// The semicolon behind the first statement of a head.
fn at_semicolon(tokens: &[Token], out: &mut Writer, at: usize, mark: usize) -> Option<usize>
    ensures some { IfSome result (λ to. (is_semicolon (kind_at tokens.now at) ≡ true) × (to ≡ at) × (out.new.posts ≡ out.old.posts)) }
    ensures none { IfNone result ((is_semicolon (kind_at tokens.now at) ≡ false) × (out.new.posts.items ≡ take mark out.old.posts.items)) }
{
    if semicolon_at(tokens, at) {
        return Some(at);
    }
    missing(out, at);
    undo(out, mark);
    None
}

#[cycle(reading)]
fn listed(
    tokens: &[Token],
    out: &mut Writer,
    fuel: usize,
    from: usize,
    mark: usize,
    at: usize,
) -> Result<Option<usize>, Memory>
    requires { mark ≤ vec_len out.old.posts }
    ensures { IfOk result (λ r. Settles mark out.old.posts.items r out.new.posts.items (listed_by tokens.now (read tokens.now fuel) from mark (at, out.old.posts.items))) }
{
    if ranges(tokens, at) {
        return Ok(Some(at));
    }
    range_behind_define(tokens, out, from, at);
    let Some(to) = assign(tokens, out, fuel, false, from, mark, at)? else {
        return Ok(None);
    };
    Ok(at_semicolon(tokens, out, to, mark))
}

// What follows the first expression of a head.
#[cycle(reading)]
fn opened(
    tokens: &[Token],
    out: &mut Writer,
    fuel: usize,
    from: usize,
    mark: usize,
    at: usize,
) -> Result<Option<usize>, Memory>
    requires { mark ≤ vec_len out.old.posts }
    ensures { IfOk result (λ r. Settles mark out.old.posts.items r out.new.posts.items (opened_by tokens.now (read tokens.now fuel) from mark (at, out.old.posts.items))) }
{
    if is_mark(tokens, at, Mark::OpenBrace) || guards(tokens, at) {
        return Ok(Some(at));
    }
    if assign_at(tokens, at) || is_mark(tokens, at, Mark::Define) {
        let Some(mid) = more_expressions_behind(tokens, out, fuel, false, mark, at)? else {
            return Ok(None);
        };
        return listed(tokens, out, fuel, from, mark, mid);
    }
    paren_behind_first_guard(tokens, out, from, at);
    let Some(to) = simple_behind(tokens, out, fuel, false, from, mark, at)? else {
        return Ok(None);
    };
    Ok(at_semicolon(tokens, out, to, mark))
}

/// The beginning of a head: an expression, expressions before `range`, or a simple statement before its semicolon.
#[cycle(reading)]
pub fn opening(
    tokens: &[Token],
    out: &mut Writer,
    fuel: usize,
    at: usize,
) -> Result<Option<usize>, Memory>
    ensures { IfOk result (λ r. Gives out.old.posts.items r out.new.posts.items (opening_by tokens.now (read tokens.now fuel) at out.old.posts.items)) }
{
    let mark = out.posts.len();
    if defines(tokens, at) {
        let Some(to) = simple(tokens, out, fuel, false, at)? else {
            return Ok(None);
        };
        return Ok(at_semicolon(tokens, out, to, mark));
    }
    values_behind_names(tokens, out, at);
    let Some(mid) = level(tokens, out, fuel, 1, false, at)? else {
        return Ok(None);
    };
    opened(tokens, out, fuel, at, mark, mid)
}

#[cycle(reading)]
fn condition_behind(
    tokens: &[Token],
    out: &mut Writer,
    fuel: usize,
    from: usize,
    mark: usize,
    at: usize,
) -> Result<Option<usize>, Memory>
    requires { mark ≤ vec_len out.old.posts }
    ensures { IfOk result (λ r. Settles mark out.old.posts.items r out.new.posts.items (condition_behind_by tokens.now (read tokens.now fuel) from mark (at, out.old.posts.items))) }
{
    if semicolon_at(tokens, at) {
        close(out, NodeKind::Init, from, at, mark)?;
        let Some(to) = level(tokens, out, fuel, 1, false, at + 1)? else {
            undo(out, mark);
            return Ok(None);
        };
        return Ok(Some(to));
    }
    if is_mark(tokens, at, Mark::OpenBrace) {
        return Ok(Some(at));
    }
    missing(out, at);
    undo(out, mark);
    Ok(None)
}

// The condition of an `if`, with what stands before it.
#[cycle(reading)]
fn condition(
    tokens: &[Token],
    out: &mut Writer,
    fuel: usize,
    at: usize,
) -> Result<Option<usize>, Memory>
    ensures { IfOk result (λ r. Gives out.old.posts.items r out.new.posts.items (condition_by tokens.now (read tokens.now fuel) at out.old.posts.items)) }
{
    let mark = out.posts.len();
    if semicolon_at(tokens, at) {
        put_empty(out, NodeKind::Init, at)?;
        let Some(to) = level(tokens, out, fuel, 1, false, at + 1)? else {
            undo(out, mark);
            return Ok(None);
        };
        return Ok(Some(to));
    }
    let Some(mid) = opening(tokens, out, fuel, at)? else {
        return Ok(None);
    };
    condition_behind(tokens, out, fuel, at, mark, mid)
}

/// An `if` with all that follows its `else`.
#[cycle(reading)]
pub fn ifs(
    tokens: &[Token],
    out: &mut Writer,
    steps: usize,
    first: usize,
) -> Result<Option<usize>, Memory>
    ensures { IfOk result (λ r. Gives out.old.posts.items r out.new.posts.items (read tokens.now steps (Ifs []) first out.old.posts.items)) }
{
    let mark = out.posts.len();
    let mut begun = Vec::new(out.alloc);
    let mut at = first;
    let mut fuel = steps;
    while fuel > 0 {
        fuel -= 1;
        if !is_word(tokens, at, Keyword::If) {
            missing(out, at);
            undo(out, mark);
            return Ok(None);
        }
        begun.push((at, out.posts.len()))?;
        let Some(mid) = condition(tokens, out, fuel, at + 1)? else {
            undo(out, mark);
            return Ok(None);
        };
        let Some(end) = block(tokens, out, fuel, mid)? else {
            undo(out, mark);
            return Ok(None);
        };
        if !is_word(tokens, end, Keyword::Else) {
            close_all(out, NodeKind::If, begun, end)?;
            return Ok(Some(end));
        }
        if is_word(tokens, end + 1, Keyword::If) {
            at = end + 1;
            continue;
        }
        let Some(to) = block(tokens, out, fuel, end + 1)? else {
            undo(out, mark);
            return Ok(None);
        };
        close_all(out, NodeKind::If, begun, to)?;
        return Ok(Some(to));
    }
    undo(out, mark);
    Ok(None)
}
