// What stands in the braces of a composite literal.
#![tactic(auto, using(argot_parse_reader::proofs::Steps::read_more, argot_parse_reader::proofs::Steps::read_none, argot_parse_reader::proofs::Grows::kept))]

ghost use Rattle.std.specs.Prelude.{IfOk};
ghost use Rattle.argot_tree.specs.Grammar.{Elems, Items, Item, Value};
ghost use Rattle.argot_parse_reader.specs.Reading.{The, Gives};
ghost use Rattle.argot_parse_reader.specs.Reader.{read};

use crate::expressions::level;
use argot_parse_tokens::{Writer, close, expect_list, goes_on, is_mark, missing, put, undo};
use argot_text::Memory;
use argot_tree::{Mark, NodeKind, Token};

/// Elements in their braces.
#[cycle(reading)]
pub fn elems(
    tokens: &[Token],
    out: &mut Writer,
    fuel: usize,
    at: usize,
) -> Result<Option<usize>, Memory>
    ensures { IfOk result (λ r. Gives out.old.posts.items r out.new.posts.items (read tokens.now fuel (The Elems) at out.old.posts.items)) }
{
    if fuel == 0 {
        return Ok(None);
    }
    if !is_mark(tokens, at, Mark::OpenBrace) {
        missing(out, at);
        return Ok(None);
    }
    if is_mark(tokens, at + 1, Mark::CloseBrace) {
        put(out, NodeKind::Elems, at, at + 2)?;
        return Ok(Some(at + 2));
    }
    let mark = out.posts.len();
    let Some(inner) = items(tokens, out, fuel - 1, at + 1)? else {
        return Ok(None);
    };
    let Some(to) = expect_list(tokens, out, inner, Mark::CloseBrace, mark) else {
        return Ok(None);
    };
    close(out, NodeKind::Elems, at, to, mark)?;
    Ok(Some(to))
}

#[cycle(reading)]
fn items(
    tokens: &[Token],
    out: &mut Writer,
    steps: usize,
    first: usize,
) -> Result<Option<usize>, Memory>
    ensures { IfOk result (λ r. Gives out.old.posts.items r out.new.posts.items (read tokens.now steps (The Items) first out.old.posts.items)) }
{
    let mark = out.posts.len();
    let mut at = first;
    let mut fuel = steps;
    while fuel > 0 {
        fuel -= 1;
        let Some(to) = item(tokens, out, fuel, at)? else {
            undo(out, mark);
            return Ok(None);
        };
        if !goes_on(tokens, Mark::CloseBrace, to) {
            return Ok(Some(to));
        }
        at = to + 1;
    }
    undo(out, mark);
    Ok(None)
}

// A value, or a key and a value.
#[cycle(reading)]
fn item(tokens: &[Token], out: &mut Writer, fuel: usize, at: usize) -> Result<Option<usize>, Memory>
    ensures { IfOk result (λ r. Gives out.old.posts.items r out.new.posts.items (read tokens.now fuel (The Item) at out.old.posts.items)) }
{
    if fuel == 0 {
        return Ok(None);
    }
    let mark = out.posts.len();
    let Some(mid) = value(tokens, out, fuel - 1, at)? else {
        return Ok(None);
    };
    if !is_mark(tokens, mid, Mark::Colon) {
        close(out, NodeKind::Item, at, mid, mark)?;
        return Ok(Some(mid));
    }
    let Some(to) = value(tokens, out, fuel - 1, mid + 1)? else {
        undo(out, mark);
        return Ok(None);
    };
    close(out, NodeKind::KeyedItem, at, to, mark)?;
    Ok(Some(to))
}

#[cycle(reading)]
fn value(
    tokens: &[Token],
    out: &mut Writer,
    fuel: usize,
    at: usize,
) -> Result<Option<usize>, Memory>
    ensures { IfOk result (λ r. Gives out.old.posts.items r out.new.posts.items (read tokens.now fuel (The Value) at out.old.posts.items)) }
{
    if fuel == 0 {
        return Ok(None);
    }
    if is_mark(tokens, at, Mark::OpenBrace) {
        return elems(tokens, out, fuel - 1, at);
    }
    level(tokens, out, fuel - 1, 1, true, at)
}
