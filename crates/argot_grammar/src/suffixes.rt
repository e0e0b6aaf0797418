// What goes on behind an operand: selectors, indexes, slices, type assertions and calls.
#![tactic(auto, using(argot_parse_reader::proofs::Steps::read_more, argot_parse_reader::proofs::Steps::read_none, argot_parse_reader::proofs::Grows::kept))]

ghost use Rattle.std.specs.Prelude.{◌≡◌, ◌<◌, ◌≤◌, ◌+◌, length, IfOk, Some, vec_len};
ghost use Rattle.argot_tree.specs.declared.node_kind.NodeKind.TheVariants as nodes;
ghost use Rattle.argot_parse_reader.specs.Reading.{Suffixes, Gives, Settles};
ghost use Rattle.argot_parse_reader.specs.ExpressionReader.{suffix_by, dot_by, bracket_by, bracket_end, third_by, second_by, from_start_by, behind_first_by, call_by, arguments_by};
ghost use Rattle.argot_parse_reader.specs.Reader.{read};

use crate::expressions::{eithers, level};
use crate::types::any_type;
use argot_parse_tokens::{
    Writer, close, expect, expect_list, is_mark, is_name, missing, put, undo,
};
use argot_text::Memory;
use argot_tree::{Mark, NodeKind, Token};

/// All that goes on behind an operand that begins at `from`, with its nodes from `mark` on.
#[cycle(reading)]
pub fn suffixes(
    tokens: &[Token],
    out: &mut Writer,
    steps: usize,
    from: usize,
    mark: usize,
    behind: usize,
) -> Result<usize, Memory>
    ensures { IfOk result (λ to. read tokens.now steps (Suffixes from mark) behind out.old.posts.items ≡ Some (to, out.new.posts.items)) }
{
    let mut at = behind;
    let mut fuel = steps;
    while fuel > 0 {
        fuel -= 1;
        let Some(to) = suffix(tokens, out, fuel, from, mark, at)? else {
            return Ok(at);
        };
        at = to;
    }
    Ok(at)
}

#[cycle(reading)]
fn suffix(
    tokens: &[Token],
    out: &mut Writer,
    fuel: usize,
    from: usize,
    mark: usize,
    at: usize,
) -> Result<Option<usize>, Memory>
    ensures { IfOk result (λ r. Gives out.old.posts.items r out.new.posts.items (suffix_by tokens.now (read tokens.now fuel) from mark at out.old.posts.items)) }
{
    if is_mark(tokens, at, Mark::Dot) {
        return dot(tokens, out, fuel, from, mark, at);
    }
    if is_mark(tokens, at, Mark::OpenBracket) {
        return bracket(tokens, out, fuel, from, mark, at);
    }
    if is_mark(tokens, at, Mark::OpenParen) {
        return call(tokens, out, fuel, from, mark, at);
    }
    Ok(None)
}

#[cycle(reading)]
fn dot(
    tokens: &[Token],
    out: &mut Writer,
    fuel: usize,
    from: usize,
    mark: usize,
    at: usize,
) -> Result<Option<usize>, Memory>
    requires { at < length tokens.now }
    ensures { IfOk result (λ r. Gives out.old.posts.items r out.new.posts.items (dot_by tokens.now (read tokens.now fuel) from mark at out.old.posts.items)) }
{
    if is_name(tokens, at + 1) {
        put(out, NodeKind::SelectedName, at + 1, at + 2)?;
        close(out, NodeKind::Selector, from, at + 2, mark)?;
        return Ok(Some(at + 2));
    }
    if !is_mark(tokens, at + 1, Mark::OpenParen) {
        missing(out, at + 1);
        return Ok(None);
    }
    let begun = out.posts.len();
    let Some(inner) = any_type(tokens, out, fuel, at + 2)? else {
        return Ok(None);
    };
    let Some(to) = expect(tokens, out, inner, Mark::CloseParen, begun) else {
        return Ok(None);
    };
    close(out, NodeKind::TypeAssertion, from, to, mark)?;
    Ok(Some(to))
}

// The end of a bracket that was begun behind a mark.
fn end_bracket(
    tokens: &[Token],
    out: &mut Writer,
    kind: NodeKind,
    from: usize,
    mark: usize,
    begun: usize,
    at: usize,
) -> Result<Option<usize>, Memory>
    requires { begun ≤ vec_len out.old.posts }
    ensures { IfOk result (λ r. Settles begun out.old.posts.items r out.new.posts.items (bracket_end tokens.now kind from mark (at, out.old.posts.items))) }
{
    let Some(to) = expect(tokens, out, at, Mark::CloseBracket, begun) else {
        return Ok(None);
    };
    close(out, kind, from, to, mark)?;
    Ok(Some(to))
}

// The expression behind the second colon of a slice.
#[cycle(reading)]
fn third(
    tokens: &[Token],
    out: &mut Writer,
    fuel: usize,
    kind: NodeKind,
    from: usize,
    mark: usize,
    begun: usize,
    at: usize,
) -> Result<Option<usize>, Memory>
    requires within { at < length tokens.now }
    requires marked { begun ≤ vec_len out.old.posts }
    ensures { IfOk result (λ r. Settles begun out.old.posts.items r out.new.posts.items (third_by tokens.now (read tokens.now fuel) kind from mark (at, out.old.posts.items))) }
{
    let Some(to) = level(tokens, out, fuel, 1, true, at + 1)? else {
        undo(out, begun);
        return Ok(None);
    };
    end_bracket(tokens, out, kind, from, mark, begun, to)
}

// What follows the second expression of a slice.
#[cycle(reading)]
fn second(
    tokens: &[Token],
    out: &mut Writer,
    fuel: usize,
    kind: NodeKind,
    with_max: NodeKind,
    from: usize,
    mark: usize,
    begun: usize,
    at: usize,
) -> Result<Option<usize>, Memory>
    requires { begun ≤ vec_len out.old.posts }
    ensures { IfOk result (λ r. Settles begun out.old.posts.items r out.new.posts.items (second_by tokens.now (read tokens.now fuel) kind with_max from mark (at, out.old.posts.items))) }
{
    if is_mark(tokens, at, Mark::Colon) {
        return third(tokens, out, fuel, with_max, from, mark, begun, at);
    }
    end_bracket(tokens, out, kind, from, mark, begun, at)
}

// A slice without its first expression.
#[cycle(reading)]
fn from_start(
    tokens: &[Token],
    out: &mut Writer,
    fuel: usize,
    from: usize,
    mark: usize,
    at: usize,
) -> Result<Option<usize>, Memory>
    requires { at + 1 < length tokens.now }
    ensures { IfOk result (λ r. Gives out.old.posts.items r out.new.posts.items (from_start_by tokens.now (read tokens.now fuel) from mark at out.old.posts.items)) }
{
    if is_mark(tokens, at + 2, Mark::CloseBracket) {
        close(out, NodeKind::SliceAll, from, at + 3, mark)?;
        return Ok(Some(at + 3));
    }
    let begun = out.posts.len();
    let Some(mid) = level(tokens, out, fuel, 1, true, at + 2)? else {
        return Ok(None);
    };
    second(
        tokens,
        out,
        fuel,
        NodeKind::SliceTo,
        NodeKind::SliceToMax,
        from,
        mark,
        begun,
        mid,
    )
}

// What follows the first expression of an index or a slice.
#[cycle(reading)]
fn behind_first(
    tokens: &[Token],
    out: &mut Writer,
    fuel: usize,
    from: usize,
    mark: usize,
    begun: usize,
    at: usize,
) -> Result<Option<usize>, Memory>
    requires { begun ≤ vec_len out.old.posts }
    ensures { IfOk result (λ r. Settles begun out.old.posts.items r out.new.posts.items (behind_first_by tokens.now (read tokens.now fuel) from mark (at, out.old.posts.items))) }
{
    if !is_mark(tokens, at, Mark::Colon) {
        return end_bracket(tokens, out, NodeKind::Index, from, mark, begun, at);
    }
    if is_mark(tokens, at + 1, Mark::CloseBracket) {
        close(out, NodeKind::SliceFrom, from, at + 2, mark)?;
        return Ok(Some(at + 2));
    }
    let Some(mid) = level(tokens, out, fuel, 1, true, at + 1)? else {
        undo(out, begun);
        return Ok(None);
    };
    second(
        tokens,
        out,
        fuel,
        NodeKind::SliceBetween,
        NodeKind::SliceBetweenMax,
        from,
        mark,
        begun,
        mid,
    )
}

// An index or a slice.
#[cycle(reading)]
fn bracket(
    tokens: &[Token],
    out: &mut Writer,
    fuel: usize,
    from: usize,
    mark: usize,
    at: usize,
) -> Result<Option<usize>, Memory>
    requires { at < length tokens.now }
    ensures { IfOk result (λ r. Gives out.old.posts.items r out.new.posts.items (bracket_by tokens.now (read tokens.now fuel) from mark at out.old.posts.items)) }
{
    if is_mark(tokens, at + 1, Mark::Colon) {
        return from_start(tokens, out, fuel, from, mark, at);
    }
    let begun = out.posts.len();
    let Some(mid) = level(tokens, out, fuel, 1, true, at + 1)? else {
        return Ok(None);
    };
    behind_first(tokens, out, fuel, from, mark, begun, mid)
}

#[cycle(reading)]
fn call(
    tokens: &[Token],
    out: &mut Writer,
    fuel: usize,
    from: usize,
    mark: usize,
    at: usize,
) -> Result<Option<usize>, Memory>
    requires { at < length tokens.now }
    ensures { IfOk result (λ r. Gives out.old.posts.items r out.new.posts.items (call_by tokens.now (read tokens.now fuel) from mark at out.old.posts.items)) }
{
    if is_mark(tokens, at + 1, Mark::CloseParen) {
        close(out, NodeKind::Call, from, at + 2, mark)?;
        return Ok(Some(at + 2));
    }
    let begun = out.posts.len();
    let Some(mid) = eithers(tokens, out, fuel, at + 1)? else {
        return Ok(None);
    };
    end_arguments(tokens, out, from, mark, begun, mid)
}

// What closes arguments that were begun behind a mark.
fn end_arguments(
    tokens: &[Token],
    out: &mut Writer,
    from: usize,
    mark: usize,
    begun: usize,
    at: usize,
) -> Result<Option<usize>, Memory>
    requires { begun ≤ vec_len out.old.posts }
    ensures { IfOk result (λ r. Settles begun out.old.posts.items r out.new.posts.items (arguments_by tokens.now from mark (at, out.old.posts.items))) }
{
    if is_mark(tokens, at, Mark::Ellipsis) {
        let Some(to) = expect_list(tokens, out, at + 1, Mark::CloseParen, begun) else {
            return Ok(None);
        };
        close(out, NodeKind::SpreadCall, from, to, mark)?;
        return Ok(Some(to));
    }
    let Some(to) = expect_list(tokens, out, at, Mark::CloseParen, begun) else {
        return Ok(None);
    };
    close(out, NodeKind::Call, from, to, mark)?;
    Ok(Some(to))
}
