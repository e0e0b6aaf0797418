// Switches.
#![tactic(auto, using(argot_parse_reader::proofs::Steps::read_more, argot_parse_reader::proofs::Steps::read_none, argot_parse_reader::proofs::Grows::kept))]

ghost use Rattle.std.specs.Prelude.{◌≡◌, ◌<◌, ◌≤◌, ◌+◌, length, IfOk, vec_len};
ghost use Rattle.argot_tree.specs.Grammar.{Cases, Case};
ghost use Rattle.argot_parse_reader.specs.Reading.{The, Gives, Settles};
ghost use Rattle.argot_parse_reader.specs.StatementReader.{switched_by, tagged_by, named_guard_by, tag_by, init_by, defined_by, opened_switch_by, head_by, switch_by, clause_by};
ghost use Rattle.argot_parse_reader.specs.Reader.{read};

use crate::blocks::stmts;
use crate::expressions::{eithers, level, primary};
use crate::heads::{opening, put_empty};
use crate::statements::more_expressions_behind;
use argot_parse_tokens::{
    Writer, clause_at, close, expect, guards, is_mark, is_name, is_primary, is_word, missing,
    paren_behind_guard, put, semicolon_at, undo,
};
use argot_text::Memory;
use argot_tree::{Keyword, Mark, NodeKind, Token};

// The cases of a `switch` whose head is read.
#[cycle(reading)]
fn switched(
    tokens: &[Token],
    out: &mut Writer,
    fuel: usize,
    kind: NodeKind,
    from: usize,
    mark: usize,
    at: usize,
) -> Result<Option<usize>, Memory>
    requires { mark ≤ vec_len out.old.posts }
    ensures { IfOk result (λ r. Settles mark out.old.posts.items r out.new.posts.items (switched_by tokens.now (read tokens.now fuel) kind from mark (at, out.old.posts.items))) }
{
    if !is_mark(tokens, at, Mark::OpenBrace) {
        missing(out, at);
        undo(out, mark);
        return Ok(None);
    }
    let Some(inner) = cases(tokens, out, fuel, at + 1)? else {
        undo(out, mark);
        return Ok(None);
    };
    let Some(to) = expect(tokens, out, inner, Mark::CloseBrace, mark) else {
        return Ok(None);
    };
    close(out, kind, from, to, mark)?;
    Ok(Some(to))
}

// An expression of the head that is read, or a guard.
#[cycle(reading)]
fn tagged(
    tokens: &[Token],
    out: &mut Writer,
    fuel: usize,
    from: usize,
    mark: usize,
    start: usize,
    since: usize,
    at: usize,
) -> Result<Option<usize>, Memory>
    requires { mark ≤ vec_len out.old.posts }
    ensures { IfOk result (λ r. Settles mark out.old.posts.items r out.new.posts.items (tagged_by tokens.now (read tokens.now fuel) from mark start since (at, out.old.posts.items))) }
{
    if !guards(tokens, at) {
        paren_behind_guard(tokens, out, at);
        return switched(tokens, out, fuel, NodeKind::Switch, from, mark, at);
    }
    if !is_primary(&out.posts) {
        missing(out, at + 2);
        undo(out, mark);
        return Ok(None);
    }
    close(out, NodeKind::Guard, start, at + 4, since)?;
    switched(tokens, out, fuel, NodeKind::TypeSwitch, from, mark, at + 4)
}

#[cycle(reading)]
fn named_guard(
    tokens: &[Token],
    out: &mut Writer,
    fuel: usize,
    from: usize,
    mark: usize,
    start: usize,
    since: usize,
    at: usize,
) -> Result<Option<usize>, Memory>
    requires within { start + 1 < length tokens.now }
    requires begun { since ≤ vec_len out.old.posts }
    requires marked { mark ≤ vec_len out.old.posts }
    ensures { IfOk result (λ r. Settles mark out.old.posts.items r out.new.posts.items (named_guard_by tokens.now (read tokens.now fuel) from mark start since (at, out.old.posts.items))) }
{
    if !(guards(tokens, at) && is_primary(&out.posts)) {
        missing(out, at);
        paren_behind_guard(tokens, out, at);
        undo(out, mark);
        return Ok(None);
    }
    close(out, NodeKind::Guard, start + 2, at + 4, since + 1)?;
    close(out, NodeKind::NamedGuard, start, at + 4, since)?;
    switched(tokens, out, fuel, NodeKind::TypeSwitch, from, mark, at + 4)
}

// What a `switch` asks for behind its first statement.
#[cycle(reading)]
fn switch_tag(
    tokens: &[Token],
    out: &mut Writer,
    fuel: usize,
    from: usize,
    mark: usize,
    at: usize,
) -> Result<Option<usize>, Memory>
    requires { mark ≤ vec_len out.old.posts }
    ensures { IfOk result (λ r. Settles mark out.old.posts.items r out.new.posts.items (tag_by tokens.now (read tokens.now fuel) from mark at out.old.posts.items)) }
{
    if is_mark(tokens, at, Mark::OpenBrace) {
        return switched(tokens, out, fuel, NodeKind::Switch, from, mark, at);
    }
    let since = out.posts.len();
    if is_name(tokens, at) && is_mark(tokens, at + 1, Mark::Define) {
        put(out, NodeKind::DeclName, at, at + 1)?;
        let Some(mid) = primary(tokens, out, fuel, false, false, at + 2)? else {
            undo(out, mark);
            return Ok(None);
        };
        return named_guard(tokens, out, fuel, from, mark, at, since, mid);
    }
    let Some(mid) = level(tokens, out, fuel, 1, false, at)? else {
        undo(out, mark);
        return Ok(None);
    };
    tagged(tokens, out, fuel, from, mark, at, since, mid)
}

#[cycle(reading)]
fn after_init(
    tokens: &[Token],
    out: &mut Writer,
    fuel: usize,
    from: usize,
    mark: usize,
    start: usize,
    at: usize,
) -> Result<Option<usize>, Memory>
    requires { mark ≤ vec_len out.old.posts }
    ensures { IfOk result (λ r. Settles mark out.old.posts.items r out.new.posts.items (init_by tokens.now (read tokens.now fuel) from mark start (at, out.old.posts.items))) }
{
    if !semicolon_at(tokens, at) {
        missing(out, at);
        undo(out, mark);
        return Ok(None);
    }
    close(out, NodeKind::Init, start, at, mark)?;
    switch_tag(tokens, out, fuel, from, mark, at + 1)
}

// A head that begins with a name and `:=`, whose first expression is read: a guard, or a definition.
#[cycle(reading)]
fn defined(
    tokens: &[Token],
    out: &mut Writer,
    fuel: usize,
    from: usize,
    mark: usize,
    start: usize,
    at: usize,
) -> Result<Option<usize>, Memory>
    requires within { start + 1 < length tokens.now }
    requires marked { mark + 2 ≤ vec_len out.old.posts }
    ensures { IfOk result (λ r. Settles mark out.old.posts.items r out.new.posts.items (defined_by tokens.now (read tokens.now fuel) from mark start (at, out.old.posts.items))) }
{
    if guards(tokens, at) {
        out.posts.remove(mark + 1);
        return named_guard(tokens, out, fuel, from, mark, start, mark, at);
    }
    paren_behind_guard(tokens, out, at);
    let Some(to) = more_expressions_behind(tokens, out, fuel, false, mark, at)? else {
        return Ok(None);
    };
    close(out, NodeKind::Exprs, start + 2, to, mark + 2)?;
    close(out, NodeKind::Define, start, to, mark)?;
    after_init(tokens, out, fuel, from, mark, start, to)
}

#[cycle(reading)]
fn opened_switch(
    tokens: &[Token],
    out: &mut Writer,
    fuel: usize,
    from: usize,
    mark: usize,
    start: usize,
    at: usize,
) -> Result<Option<usize>, Memory>
    requires { mark ≤ vec_len out.old.posts }
    ensures { IfOk result (λ r. Settles mark out.old.posts.items r out.new.posts.items (opened_switch_by tokens.now (read tokens.now fuel) from mark start (at, out.old.posts.items))) }
{
    if semicolon_at(tokens, at) {
        return after_init(tokens, out, fuel, from, mark, start, at);
    }
    tagged(tokens, out, fuel, from, mark, start, mark, at)
}

/// A `switch`.
#[cycle(reading)]
pub fn switch_stmt(
    tokens: &[Token],
    out: &mut Writer,
    fuel: usize,
    at: usize,
) -> Result<Option<usize>, Memory>
    requires { at < length tokens.now }
    ensures { IfOk result (λ r. Gives out.old.posts.items r out.new.posts.items (switch_by tokens.now (read tokens.now fuel) at out.old.posts.items)) }
{
    switch_head(tokens, out, fuel, at, at + 1)
}

// A `switch` whose head begins at `start`.
#[cycle(reading)]
fn switch_head(
    tokens: &[Token],
    out: &mut Writer,
    fuel: usize,
    from: usize,
    start: usize,
) -> Result<Option<usize>, Memory>
    ensures { IfOk result (λ r. Gives out.old.posts.items r out.new.posts.items (head_by tokens.now (read tokens.now fuel) from start out.old.posts.items)) }
{
    let mark = out.posts.len();
    if semicolon_at(tokens, start) {
        put_empty(out, NodeKind::Init, start)?;
        return switch_tag(tokens, out, fuel, from, mark, start + 1);
    }
    if is_mark(tokens, start, Mark::OpenBrace) {
        return switched(tokens, out, fuel, NodeKind::Switch, from, mark, start);
    }
    if is_name(tokens, start) && is_mark(tokens, start + 1, Mark::Define) {
        put(out, NodeKind::DeclName, start, start + 1)?;
        close(out, NodeKind::Names, start, start + 1, mark)?;
        let Some(mid) = level(tokens, out, fuel, 1, false, start + 2)? else {
            undo(out, mark);
            return Ok(None);
        };
        return defined(tokens, out, fuel, from, mark, start, mid);
    }
    let Some(mid) = opening(tokens, out, fuel, start)? else {
        return Ok(None);
    };
    opened_switch(tokens, out, fuel, from, mark, start, mid)
}

/// A clause from its colon on.
#[cycle(reading)]
pub fn clause(
    tokens: &[Token],
    out: &mut Writer,
    fuel: usize,
    kind: NodeKind,
    from: usize,
    mark: usize,
    at: usize,
) -> Result<Option<usize>, Memory>
    requires { mark ≤ vec_len out.old.posts }
    ensures { IfOk result (λ r. Settles mark out.old.posts.items r out.new.posts.items (clause_by tokens.now (read tokens.now fuel) kind from mark (at, out.old.posts.items))) }
{
    if !is_mark(tokens, at, Mark::Colon) {
        missing(out, at);
        undo(out, mark);
        return Ok(None);
    }
    let Some(to) = stmts(tokens, out, fuel, at + 1)? else {
        undo(out, mark);
        return Ok(None);
    };
    close(out, kind, from, to, mark)?;
    Ok(Some(to))
}

#[cycle(reading)]
fn cases(
    tokens: &[Token],
    out: &mut Writer,
    steps: usize,
    first: usize,
) -> Result<Option<usize>, Memory>
    ensures { IfOk result (λ r. Gives out.old.posts.items r out.new.posts.items (read tokens.now steps (The Cases) first out.old.posts.items)) }
{
    let mark = out.posts.len();
    let mut at = first;
    let mut fuel = steps;
    while fuel > 0 {
        fuel -= 1;
        if !clause_at(tokens, at) {
            return Ok(Some(at));
        }
        let Some(to) = case(tokens, out, fuel, at)? else {
            undo(out, mark);
            return Ok(None);
        };
        at = to;
    }
    undo(out, mark);
    Ok(None)
}

#[cycle(reading)]
fn case(tokens: &[Token], out: &mut Writer, fuel: usize, at: usize) -> Result<Option<usize>, Memory>
    ensures { IfOk result (λ r. Gives out.old.posts.items r out.new.posts.items (read tokens.now fuel (The Case) at out.old.posts.items)) }
{
    if fuel == 0 {
        return Ok(None);
    }
    let mark = out.posts.len();
    if is_word(tokens, at, Keyword::Case) {
        let Some(mid) = eithers(tokens, out, fuel - 1, at + 1)? else {
            return Ok(None);
        };
        close(out, NodeKind::Values, at + 1, mid, mark)?;
        return clause(tokens, out, fuel - 1, NodeKind::Case, at, mark, mid);
    }
    if !is_word(tokens, at, Keyword::Default) {
        missing(out, at);
        return Ok(None);
    }
    clause(tokens, out, fuel - 1, NodeKind::Default, at, mark, at + 1)
}
