// Signatures and parameters.
#![tactic(auto, using(argot_parse_reader::proofs::Steps::read_more, argot_parse_reader::proofs::Steps::read_none, argot_parse_reader::proofs::Grows::kept))]

ghost use Rattle.std.specs.Prelude.{◌<◌, length, IfOk};
ghost use Rattle.argot_tree.specs.Grammar.{Signature, Params, Types, NamedList};
ghost use Rattle.argot_parse_reader.specs.Reading.{The, Gives};
ghost use Rattle.argot_parse_reader.specs.TypeReader.{result_by, listed_by};
ghost use Rattle.argot_parse_reader.specs.Reader.{read};

use crate::types::any_type;
use argot_parse_tokens::{
    Writer, close, expect_list, goes_on, is_mark, is_name, missing, names_then_parameter, put,
    type_at, undo,
};
use argot_text::Memory;
use argot_tree::{Mark, NodeKind, Token};

/// Parameters, and a result wherever one can begin behind them.
#[cycle(reading)]
pub fn signature(
    tokens: &[Token],
    out: &mut Writer,
    fuel: usize,
    at: usize,
) -> Result<Option<usize>, Memory>
    ensures { IfOk result (λ r. Gives out.old.posts.items r out.new.posts.items (read tokens.now fuel (The Signature) at out.old.posts.items)) }
{
    if fuel == 0 {
        return Ok(None);
    }
    let mark = out.posts.len();
    let Some(mid) = params(tokens, out, fuel - 1, true, at)? else {
        return Ok(None);
    };
    let Some(to) = after_params(tokens, out, fuel - 1, mid)? else {
        undo(out, mark);
        return Ok(None);
    };
    close(out, NodeKind::Signature, at, to, mark)?;
    Ok(Some(to))
}

#[cycle(reading)]
fn after_params(
    tokens: &[Token],
    out: &mut Writer,
    fuel: usize,
    at: usize,
) -> Result<Option<usize>, Memory>
    ensures { IfOk result (λ r. Gives out.old.posts.items r out.new.posts.items (result_by tokens.now (read tokens.now fuel) (at, out.old.posts.items))) }
{
    if is_mark(tokens, at, Mark::OpenParen) {
        return params(tokens, out, fuel, false, at);
    }
    if type_at(tokens, at) {
        return any_type(tokens, out, fuel, at);
    }
    Ok(Some(at))
}

/// Parameters in their parentheses; `...` may stand before the last where `dots`.
#[cycle(reading)]
pub fn params(
    tokens: &[Token],
    out: &mut Writer,
    fuel: usize,
    dots: bool,
    at: usize,
) -> Result<Option<usize>, Memory>
    ensures { IfOk result (λ r. Gives out.old.posts.items r out.new.posts.items (read tokens.now fuel (The (Params dots)) at out.old.posts.items)) }
{
    if fuel == 0 {
        return Ok(None);
    }
    if !is_mark(tokens, at, Mark::OpenParen) {
        missing(out, at);
        return Ok(None);
    }
    if is_mark(tokens, at + 1, Mark::CloseParen) {
        put(out, NodeKind::Params, at, at + 2)?;
        return Ok(Some(at + 2));
    }
    listed_params(tokens, out, fuel - 1, dots, at)
}

#[cycle(reading)]
fn listed_params(
    tokens: &[Token],
    out: &mut Writer,
    fuel: usize,
    dots: bool,
    at: usize,
) -> Result<Option<usize>, Memory>
    requires { at < length tokens.now }
    ensures { IfOk result (λ r. Gives out.old.posts.items r out.new.posts.items (listed_by tokens.now (read tokens.now fuel) dots at out.old.posts.items)) }
{
    let mark = out.posts.len();
    if names_then_parameter(tokens, at + 1) {
        let Some(inner) = named_params(tokens, out, fuel, dots, at + 1)? else {
            return Ok(None);
        };
        let Some(to) = expect_list(tokens, out, inner, Mark::CloseParen, mark) else {
            return Ok(None);
        };
        close(out, NodeKind::NamedParams, at, to, mark)?;
        return Ok(Some(to));
    }
    let Some(inner) = types(tokens, out, fuel, dots, at + 1)? else {
        return Ok(None);
    };
    let Some(to) = expect_list(tokens, out, inner, Mark::CloseParen, mark) else {
        return Ok(None);
    };
    close(out, NodeKind::Params, at, to, mark)?;
    Ok(Some(to))
}

// Types with commas between.
#[cycle(reading)]
fn types(
    tokens: &[Token],
    out: &mut Writer,
    steps: usize,
    dots: bool,
    first: usize,
) -> Result<Option<usize>, Memory>
    ensures { IfOk result (λ r. Gives out.old.posts.items r out.new.posts.items (read tokens.now steps (The (Types dots)) first out.old.posts.items)) }
{
    let mark = out.posts.len();
    let mut at = first;
    let mut fuel = steps;
    while fuel > 0 {
        fuel -= 1;
        let begun = out.posts.len();
        if dots && is_mark(tokens, at, Mark::Ellipsis) {
            let Some(to) = any_type(tokens, out, fuel, at + 1)? else {
                undo(out, mark);
                return Ok(None);
            };
            close(out, NodeKind::VariadicParam, at, to, begun)?;
            return Ok(Some(to));
        }
        let Some(to) = any_type(tokens, out, fuel, at)? else {
            undo(out, mark);
            return Ok(None);
        };
        close(out, NodeKind::Param, at, to, begun)?;
        if !goes_on(tokens, Mark::CloseParen, to) {
            return Ok(Some(to));
        }
        at = to + 1;
    }
    undo(out, mark);
    Ok(None)
}

// Parameters with names, with commas between.
#[cycle(reading)]
fn named_params(
    tokens: &[Token],
    out: &mut Writer,
    steps: usize,
    dots: bool,
    first: usize,
) -> Result<Option<usize>, Memory>
    ensures { IfOk result (λ r. Gives out.old.posts.items r out.new.posts.items (read tokens.now steps (The (NamedList dots)) first out.old.posts.items)) }
{
    let mark = out.posts.len();
    let mut at = first;
    let mut fuel = steps;
    while fuel > 0 {
        fuel -= 1;
        let begun = out.posts.len();
        if !is_name(tokens, at) {
            missing(out, at);
            undo(out, mark);
            return Ok(None);
        }
        put(out, NodeKind::DeclName, at, at + 1)?;
        if is_mark(tokens, at + 1, Mark::Comma) {
            close(out, NodeKind::LoneParam, at, at + 1, begun)?;
            at += 2;
            continue;
        }
        if dots && is_mark(tokens, at + 1, Mark::Ellipsis) {
            let Some(to) = any_type(tokens, out, fuel, at + 2)? else {
                undo(out, mark);
                return Ok(None);
            };
            close(out, NodeKind::NamedVariadic, at, to, begun)?;
            return Ok(Some(to));
        }
        let Some(to) = any_type(tokens, out, fuel, at + 1)? else {
            undo(out, mark);
            return Ok(None);
        };
        close(out, NodeKind::NamedParam, at, to, begun)?;
        if !goes_on(tokens, Mark::CloseParen, to) {
            return Ok(Some(to));
        }
        at = to + 1;
    }
    undo(out, mark);
    Ok(None)
}
