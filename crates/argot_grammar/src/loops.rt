// `select` and `for`.
#![tactic(auto, using(argot_parse_reader::proofs::Steps::read_more, argot_parse_reader::proofs::Steps::read_none, argot_parse_reader::proofs::Grows::kept))]

ghost use Rattle.std.specs.Prelude.{◌≡◌, ◌<◌, ◌≤◌, length, IfOk, vec_len, if◌then◌else◌};
ghost use Rattle.argot_tree.specs.declared.mark.Mark.TheVariants.{Assign};
ghost use Rattle.argot_tree.specs.declared.node_kind.NodeKind.TheVariants.{AssignRange, DefineRange};
ghost use Rattle.argot_tree.specs.Grammar.{Comms, Comm, MaybeCondition, MaybePost};
ghost use Rattle.argot_parse_reader.specs.Reading.{The, Gives, Settles, is_mark};
ghost use Rattle.argot_parse_reader.specs.StatementReader.{select_by, received_by, comm_behind_by, loop_by, parts_by, range_by, looped_by, for_by};
ghost use Rattle.argot_parse_reader.specs.Reader.{read};

use crate::blocks::block;
use crate::expressions::level;
use crate::heads::{opening, put_empty};
use crate::statements::{more_expressions_behind, simple};
use crate::switches::clause;
use argot_parse_tokens::{
    Writer, clause_at, close, expect, is_mark, is_word, missing, range_at, ranges, semicolon_at,
    undo,
};
use argot_text::Memory;
use argot_tree::{Keyword, Mark, NodeKind, Token};

/// A `select`.
#[cycle(reading)]
pub fn select_stmt(
    tokens: &[Token],
    out: &mut Writer,
    fuel: usize,
    at: usize,
) -> Result<Option<usize>, Memory>
    requires { at < length tokens.now }
    ensures { IfOk result (λ r. Gives out.old.posts.items r out.new.posts.items (select_by tokens.now (read tokens.now fuel) at out.old.posts.items)) }
{
    if !is_mark(tokens, at + 1, Mark::OpenBrace) {
        missing(out, at + 1);
        return Ok(None);
    }
    let mark = out.posts.len();
    let Some(inner) = comms(tokens, out, fuel, at + 2)? else {
        return Ok(None);
    };
    let Some(to) = expect(tokens, out, inner, Mark::CloseBrace, mark) else {
        return Ok(None);
    };
    close(out, NodeKind::Select, at, to, mark)?;
    Ok(Some(to))
}

#[cycle(reading)]
fn comms(
    tokens: &[Token],
    out: &mut Writer,
    steps: usize,
    first: usize,
) -> Result<Option<usize>, Memory>
    ensures { IfOk result (λ r. Gives out.old.posts.items r out.new.posts.items (read tokens.now steps (The Comms) first out.old.posts.items)) }
{
    let mark = out.posts.len();
    let mut at = first;
    let mut fuel = steps;
    while fuel > 0 {
        fuel -= 1;
        if !clause_at(tokens, at) {
            return Ok(Some(at));
        }
        let Some(to) = comm(tokens, out, fuel, at)? else {
            undo(out, mark);
            return Ok(None);
        };
        at = to;
    }
    undo(out, mark);
    Ok(None)
}

// A communication whose left sides are read.
#[cycle(reading)]
fn received(
    tokens: &[Token],
    out: &mut Writer,
    fuel: usize,
    from: usize,
    mark: usize,
    at: usize,
) -> Result<Option<usize>, Memory>
    requires within { from < length tokens.now }
    requires marked { mark ≤ vec_len out.old.posts }
    ensures { IfOk result (λ r. Settles mark out.old.posts.items r out.new.posts.items (received_by tokens.now (read tokens.now fuel) from mark (at, out.old.posts.items))) }
{
    if is_mark(tokens, at, Mark::Assign) {
        close(out, NodeKind::Exprs, from + 1, at, mark)?;
        let Some(mid) = level(tokens, out, fuel, 1, true, at + 1)? else {
            undo(out, mark);
            return Ok(None);
        };
        return clause(tokens, out, fuel, NodeKind::AssignCase, from, mark, mid);
    }
    if !is_mark(tokens, at, Mark::Define) {
        missing(out, at);
        undo(out, mark);
        return Ok(None);
    }
    close(out, NodeKind::Exprs, from + 1, at, mark)?;
    let Some(mid) = level(tokens, out, fuel, 1, true, at + 1)? else {
        undo(out, mark);
        return Ok(None);
    };
    clause(tokens, out, fuel, NodeKind::DefineCase, from, mark, mid)
}

// A communication whose first expression is read.
#[cycle(reading)]
fn comm_behind(
    tokens: &[Token],
    out: &mut Writer,
    fuel: usize,
    from: usize,
    mark: usize,
    at: usize,
) -> Result<Option<usize>, Memory>
    requires within { from < length tokens.now }
    requires marked { mark ≤ vec_len out.old.posts }
    ensures { IfOk result (λ r. Settles mark out.old.posts.items r out.new.posts.items (comm_behind_by tokens.now (read tokens.now fuel) from mark (at, out.old.posts.items))) }
{
    if is_mark(tokens, at, Mark::Arrow) {
        let Some(mid) = level(tokens, out, fuel, 1, true, at + 1)? else {
            undo(out, mark);
            return Ok(None);
        };
        return clause(tokens, out, fuel, NodeKind::SendCase, from, mark, mid);
    }
    if is_mark(tokens, at, Mark::Colon) {
        return clause(tokens, out, fuel, NodeKind::ReceiveCase, from, mark, at);
    }
    let Some(mid) = more_expressions_behind(tokens, out, fuel, true, mark, at)? else {
        return Ok(None);
    };
    received(tokens, out, fuel, from, mark, mid)
}

#[cycle(reading)]
fn comm(tokens: &[Token], out: &mut Writer, fuel: usize, at: usize) -> Result<Option<usize>, Memory>
    ensures { IfOk result (λ r. Gives out.old.posts.items r out.new.posts.items (read tokens.now fuel (The Comm) at out.old.posts.items)) }
{
    if fuel == 0 {
        return Ok(None);
    }
    let mark = out.posts.len();
    if is_word(tokens, at, Keyword::Case) {
        let Some(mid) = level(tokens, out, fuel - 1, 1, true, at + 1)? else {
            return Ok(None);
        };
        return comm_behind(tokens, out, fuel - 1, at, mark, mid);
    }
    if !is_word(tokens, at, Keyword::Default) {
        missing(out, at);
        return Ok(None);
    }
    clause(tokens, out, fuel - 1, NodeKind::Default, at, mark, at + 1)
}

#[cycle(reading)]
fn maybe_condition(
    tokens: &[Token],
    out: &mut Writer,
    fuel: usize,
    at: usize,
) -> Result<Option<usize>, Memory>
    ensures { IfOk result (λ r. Gives out.old.posts.items r out.new.posts.items (read tokens.now fuel (The MaybeCondition) at out.old.posts.items)) }
{
    if fuel == 0 {
        return Ok(None);
    }
    if semicolon_at(tokens, at) {
        return Ok(Some(at));
    }
    level(tokens, out, fuel - 1, 1, false, at)
}

#[cycle(reading)]
fn maybe_post(
    tokens: &[Token],
    out: &mut Writer,
    fuel: usize,
    at: usize,
) -> Result<Option<usize>, Memory>
    ensures { IfOk result (λ r. Gives out.old.posts.items r out.new.posts.items (read tokens.now fuel (The MaybePost) at out.old.posts.items)) }
{
    if fuel == 0 {
        return Ok(None);
    }
    if is_mark(tokens, at, Mark::OpenBrace) {
        put_empty(out, NodeKind::Post, at)?;
        return Ok(Some(at));
    }
    let mark = out.posts.len();
    let Some(to) = simple(tokens, out, fuel - 1, false, at)? else {
        return Ok(None);
    };
    close(out, NodeKind::Post, at, to, mark)?;
    Ok(Some(to))
}

#[cycle(reading)]
fn loop_body(
    tokens: &[Token],
    out: &mut Writer,
    fuel: usize,
    kind: NodeKind,
    from: usize,
    mark: usize,
    at: usize,
) -> Result<Option<usize>, Memory>
    requires { mark ≤ vec_len out.old.posts }
    ensures { IfOk result (λ r. Settles mark out.old.posts.items r out.new.posts.items (loop_by tokens.now (read tokens.now fuel) kind from mark (at, out.old.posts.items))) }
{
    let Some(to) = block(tokens, out, fuel, at)? else {
        undo(out, mark);
        return Ok(None);
    };
    close(out, kind, from, to, mark)?;
    Ok(Some(to))
}

// A `for` behind its first semicolon.
#[cycle(reading)]
fn for_parts(
    tokens: &[Token],
    out: &mut Writer,
    fuel: usize,
    from: usize,
    mark: usize,
    at: usize,
) -> Result<Option<usize>, Memory>
    requires { mark ≤ vec_len out.old.posts }
    ensures { IfOk result (λ r. Settles mark out.old.posts.items r out.new.posts.items (parts_by tokens.now (read tokens.now fuel) from mark (at, out.old.posts.items))) }
{
    let Some(condition) = maybe_condition(tokens, out, fuel, at)? else {
        undo(out, mark);
        return Ok(None);
    };
    if !semicolon_at(tokens, condition) {
        missing(out, condition);
        undo(out, mark);
        return Ok(None);
    }
    let Some(post) = maybe_post(tokens, out, fuel, condition + 1)? else {
        undo(out, mark);
        return Ok(None);
    };
    loop_body(tokens, out, fuel, NodeKind::For, from, mark, post)
}

// A `for` behind its `range`.
#[cycle(reading)]
fn range(
    tokens: &[Token],
    out: &mut Writer,
    fuel: usize,
    kind: NodeKind,
    from: usize,
    mark: usize,
    at: usize,
) -> Result<Option<usize>, Memory>
    requires { mark ≤ vec_len out.old.posts }
    ensures { IfOk result (λ r. Settles mark out.old.posts.items r out.new.posts.items (range_by tokens.now (read tokens.now fuel) kind from mark (at, out.old.posts.items))) }
{
    let Some(mid) = level(tokens, out, fuel, 1, false, at)? else {
        undo(out, mark);
        return Ok(None);
    };
    loop_body(tokens, out, fuel, kind, from, mark, mid)
}

fn range_kind(tokens: &[Token], at: usize) -> NodeKind
    ensures { result ≡ (if is_mark tokens.now at Assign then AssignRange else DefineRange) }
{
    if is_mark(tokens, at, Mark::Assign) {
        return NodeKind::AssignRange;
    }
    NodeKind::DefineRange
}

#[cycle(reading)]
fn looped(
    tokens: &[Token],
    out: &mut Writer,
    fuel: usize,
    from: usize,
    mark: usize,
    at: usize,
) -> Result<Option<usize>, Memory>
    requires within { from < length tokens.now }
    requires marked { mark ≤ vec_len out.old.posts }
    ensures { IfOk result (λ r. Settles mark out.old.posts.items r out.new.posts.items (looped_by tokens.now (read tokens.now fuel) from mark (at, out.old.posts.items))) }
{
    if semicolon_at(tokens, at) {
        close(out, NodeKind::Init, from + 1, at, mark)?;
        return for_parts(tokens, out, fuel, from, mark, at + 1);
    }
    if !ranges(tokens, at) {
        return loop_body(tokens, out, fuel, NodeKind::While, from, mark, at);
    }
    let kind = range_kind(tokens, at);
    close(out, NodeKind::Exprs, from + 1, at, mark)?;
    range(tokens, out, fuel, kind, from, mark, at + 2)
}

/// A `for`.
#[cycle(reading)]
pub fn for_stmt(
    tokens: &[Token],
    out: &mut Writer,
    fuel: usize,
    at: usize,
) -> Result<Option<usize>, Memory>
    requires { at < length tokens.now }
    ensures { IfOk result (λ r. Gives out.old.posts.items r out.new.posts.items (for_by tokens.now (read tokens.now fuel) at out.old.posts.items)) }
{
    let mark = out.posts.len();
    if range_at(tokens, at + 1) {
        return range(tokens, out, fuel, NodeKind::Range, at, mark, at + 2);
    }
    if semicolon_at(tokens, at + 1) {
        put_empty(out, NodeKind::Init, at + 1)?;
        return for_parts(tokens, out, fuel, at, mark, at + 2);
    }
    if is_mark(tokens, at + 1, Mark::OpenBrace) {
        return loop_body(tokens, out, fuel, NodeKind::While, at, mark, at + 1);
    }
    let Some(mid) = opening(tokens, out, fuel, at + 1)? else {
        return Ok(None);
    };
    looped(tokens, out, fuel, at, mark, mid)
}
