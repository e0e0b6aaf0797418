// Fields of structs, elements of interfaces, and names.
#![tactic(auto, using(argot_parse_reader::proofs::Steps::read_more, argot_parse_reader::proofs::Steps::read_none, argot_parse_reader::proofs::Grows::kept))]

ghost use Rattle.std.specs.Prelude.{◌≡◌, IfOk, IfSome, IfNone, Some, take, true, false};
ghost use Rattle.argot_tree.specs.Grammar.{Names, Fields, Field, Elements, Element};
ghost use Rattle.argot_tree.specs.declared.mark.Mark.TheVariants.{CloseBrace};
ghost use Rattle.argot_parse_reader.specs.Reading.{The, Gives, is_mark};
ghost use Rattle.argot_parse_reader.specs.TypeReader.{embedded_by, tag_by, named_field_by};
ghost use Rattle.argot_parse_reader.specs.Reader.{read};

use crate::signatures::signature;
use crate::types::{any_type, named_type};
use argot_parse_tokens::{
    Writer, close, is_mark, is_name, missing, name_behind_comma, names_then_type, put,
    semicolon_at, text_at, type_behind_names, undo,
};
use argot_text::Memory;
use argot_tree::{Mark, NodeKind, Token};

/// Names with commas between.
pub fn names(
    tokens: &[Token],
    out: &mut Writer,
    steps: usize,
    first: usize,
) -> Result<Option<usize>, Memory>
    ensures { IfOk result (λ r. Gives out.old.posts.items r out.new.posts.items (read tokens.now steps (The Names) first out.old.posts.items)) }
{
    let mark = out.posts.len();
    let mut at = first;
    let mut fuel = steps;
    while fuel > 0 {
        fuel -= 1;
        if !is_name(tokens, at) {
            missing(out, at);
            undo(out, mark);
            return Ok(None);
        }
        put(out, NodeKind::DeclName, at, at + 1)?;
        if !(is_mark(tokens, at + 1, Mark::Comma) && is_name(tokens, at + 2)) {
            name_behind_comma(tokens, out, at + 1);
            return Ok(Some(at + 1));
        }
        at += 2;
    }
    undo(out, mark);
    Ok(None)
}

// The name of an embedded type.
fn embedded(tokens: &[Token], out: &mut Writer, at: usize) -> Result<Option<usize>, Memory>
    ensures { IfOk result (λ r. Gives out.old.posts.items r out.new.posts.items (embedded_by tokens.now at out.old.posts.items)) }
{
    if !is_name(tokens, at) {
        missing(out, at);
        return Ok(None);
    }
    let to = named_type(tokens, out, at)?;
    Ok(Some(to))
}

// The text behind a field, where there is one.
fn tag(tokens: &[Token], out: &mut Writer, at: usize) -> Result<usize, Memory>
    ensures { IfOk result (λ to. tag_by tokens.now at out.old.posts.items ≡ Some (to, out.new.posts.items)) }
{
    if !text_at(tokens, at) {
        return Ok(at);
    }
    put(out, NodeKind::Tag, at, at + 1)?;
    Ok(at + 1)
}

#[cycle(reading)]
fn field(
    tokens: &[Token],
    out: &mut Writer,
    fuel: usize,
    at: usize,
) -> Result<Option<usize>, Memory>
    ensures { IfOk result (λ r. Gives out.old.posts.items r out.new.posts.items (read tokens.now fuel (The Field) at out.old.posts.items)) }
{
    if fuel == 0 {
        return Ok(None);
    }
    if names_then_type(tokens, at) {
        return named_field(tokens, out, fuel - 1, at);
    }
    type_behind_names(tokens, out, at);
    let mark = out.posts.len();
    if is_mark(tokens, at, Mark::Star) {
        let Some(mid) = embedded(tokens, out, at + 1)? else {
            return Ok(None);
        };
        let to = tag(tokens, out, mid)?;
        close(out, NodeKind::EmbeddedPointer, at, to, mark)?;
        return Ok(Some(to));
    }
    let Some(mid) = embedded(tokens, out, at)? else {
        return Ok(None);
    };
    let to = tag(tokens, out, mid)?;
    close(out, NodeKind::EmbeddedField, at, to, mark)?;
    Ok(Some(to))
}

#[cycle(reading)]
fn named_field(
    tokens: &[Token],
    out: &mut Writer,
    fuel: usize,
    at: usize,
) -> Result<Option<usize>, Memory>
    ensures { IfOk result (λ r. Gives out.old.posts.items r out.new.posts.items (named_field_by tokens.now (read tokens.now fuel) at out.old.posts.items)) }
{
    let mark = out.posts.len();
    let Some(mid) = names(tokens, out, fuel, at)? else {
        return Ok(None);
    };
    close(out, NodeKind::Names, at, mid, mark)?;
    let Some(end) = any_type(tokens, out, fuel, mid)? else {
        undo(out, mark);
        return Ok(None);
    };
    let to = tag(tokens, out, end)?;
    close(out, NodeKind::Field, at, to, mark)?;
    Ok(Some(to))
}

// A list ends where its brace stands.
pub fn closed_by_brace(tokens: &[Token], out: &mut Writer, at: usize, mark: usize) -> Option<usize>
    ensures some { IfSome result (λ to. (is_mark tokens.now at CloseBrace ≡ true) × (to ≡ at) × (out.new.posts ≡ out.old.posts)) }
    ensures none { IfNone result ((is_mark tokens.now at CloseBrace ≡ false) × (out.new.posts.items ≡ take mark out.old.posts.items)) }
{
    if is_mark(tokens, at, Mark::CloseBrace) {
        return Some(at);
    }
    missing(out, at);
    undo(out, mark);
    None
}

/// Fields up to their brace.
#[cycle(reading)]
pub fn fields(
    tokens: &[Token],
    out: &mut Writer,
    steps: usize,
    first: usize,
) -> Result<Option<usize>, Memory>
    ensures { IfOk result (λ r. Gives out.old.posts.items r out.new.posts.items (read tokens.now steps (The Fields) first out.old.posts.items)) }
{
    let mark = out.posts.len();
    let mut at = first;
    let mut fuel = steps;
    while fuel > 0 {
        fuel -= 1;
        if is_mark(tokens, at, Mark::CloseBrace) {
            return Ok(Some(at));
        }
        let Some(to) = field(tokens, out, fuel, at)? else {
            undo(out, mark);
            return Ok(None);
        };
        if !semicolon_at(tokens, to) {
            return Ok(closed_by_brace(tokens, out, to, mark));
        }
        at = to + 1;
    }
    undo(out, mark);
    Ok(None)
}

#[cycle(reading)]
fn element(
    tokens: &[Token],
    out: &mut Writer,
    fuel: usize,
    at: usize,
) -> Result<Option<usize>, Memory>
    ensures { IfOk result (λ r. Gives out.old.posts.items r out.new.posts.items (read tokens.now fuel (The Element) at out.old.posts.items)) }
{
    if fuel == 0 {
        return Ok(None);
    }
    let mark = out.posts.len();
    if is_name(tokens, at) && is_mark(tokens, at + 1, Mark::OpenParen) {
        put(out, NodeKind::DeclName, at, at + 1)?;
        let Some(to) = signature(tokens, out, fuel - 1, at + 1)? else {
            undo(out, mark);
            return Ok(None);
        };
        close(out, NodeKind::Method, at, to, mark)?;
        return Ok(Some(to));
    }
    let Some(to) = embedded(tokens, out, at)? else {
        return Ok(None);
    };
    close(out, NodeKind::EmbeddedType, at, to, mark)?;
    Ok(Some(to))
}

/// Elements up to their brace.
#[cycle(reading)]
pub fn elements(
    tokens: &[Token],
    out: &mut Writer,
    steps: usize,
    first: usize,
) -> Result<Option<usize>, Memory>
    ensures { IfOk result (λ r. Gives out.old.posts.items r out.new.posts.items (read tokens.now steps (The Elements) first out.old.posts.items)) }
{
    let mark = out.posts.len();
    let mut at = first;
    let mut fuel = steps;
    while fuel > 0 {
        fuel -= 1;
        if is_mark(tokens, at, Mark::CloseBrace) {
            return Ok(Some(at));
        }
        let Some(to) = element(tokens, out, fuel, at)? else {
            undo(out, mark);
            return Ok(None);
        };
        if !semicolon_at(tokens, to) {
            return Ok(closed_by_brace(tokens, out, to, mark));
        }
        at = to + 1;
    }
    undo(out, mark);
    Ok(None)
}
