// Operands.
#![tactic(auto, using(argot_parse_reader::proofs::Steps::read_more, argot_parse_reader::proofs::Steps::read_none, argot_parse_reader::proofs::Grows::kept))]

ghost use Rattle.std.specs.Prelude.{◌≡◌, ◌<◌, ◌≤◌, ◌+◌, ◌^◌, length, IfOk, IsTrue, vec_len};
ghost use Rattle.argot_parse_reader.specs.Reading.{OperandOr, Gives, Settles};
ghost use Rattle.argot_parse_reader.specs.ExpressionReader.{is_open_array, name_use_by, name_by, parens_by, func_by, behind_signature_by, open_array_by, type_operand_by, behind_type_by, converted_by};
ghost use Rattle.argot_parse_reader.specs.Reader.{read};

use crate::blocks::block;
use crate::elements::elems;
use crate::expressions::{either, level};
use crate::signatures::signature;
use crate::types::{any_type, named_type, only_type};
use argot_parse_tokens::{
    Writer, bracket_behind_dots, close, composite_at, conversion_at, expect, expect_list, is_mark,
    is_name, is_word, keep, literal_at, missing, put, undo,
};
use argot_text::Memory;
use argot_tree::{Keyword, Mark, NodeKind, Token};

// Whether `[...]` stands there.
fn is_open_array(tokens: &[Token], at: usize) -> bool
    ensures value { result ≡ is_open_array tokens.now at }
    ensures within { IsTrue result → at + 2 < length tokens.now }
{
    is_mark(tokens, at, Mark::OpenBracket)
        && (is_mark(tokens, at + 1, Mark::Ellipsis) && is_mark(tokens, at + 2, Mark::CloseBracket))
}

/// An operand, or a type where `types`.
#[cycle(reading)]
pub fn operand(
    tokens: &[Token],
    out: &mut Writer,
    fuel: usize,
    types: bool,
    bare: bool,
    at: usize,
) -> Result<Option<usize>, Memory>
    ensures { IfOk result (λ r. Gives out.old.posts.items r out.new.posts.items (read tokens.now fuel (OperandOr types bare) at out.old.posts.items)) }
{
    if fuel == 0 {
        return Ok(None);
    }
    if is_name(tokens, at) {
        return name_operand(tokens, out, fuel - 1, bare, at);
    }
    if literal_at(tokens, at) {
        put(out, NodeKind::Literal, at, at + 1)?;
        return Ok(Some(at + 1));
    }
    if is_mark(tokens, at, Mark::OpenParen) {
        return parens(tokens, out, fuel - 1, at);
    }
    if is_word(tokens, at, Keyword::Func) {
        return func_operand(tokens, out, fuel - 1, types, at);
    }
    if is_open_array(tokens, at) {
        return open_array(tokens, out, fuel - 1, at);
    }
    bracket_behind_dots(tokens, out, at);
    if conversion_at(tokens, at) {
        return type_operand(tokens, out, fuel - 1, types, at);
    }
    missing(out, at);
    Ok(None)
}

fn name_use(out: &mut Writer, at: usize) -> Result<Option<usize>, Memory>
    requires { at < 2 ^ 63 }
    ensures { IfOk result (λ r. Gives out.old.posts.items r out.new.posts.items (name_use_by at out.old.posts.items)) }
{
    put(out, NodeKind::NameUse, at, at + 1)?;
    Ok(Some(at + 1))
}

// A name, or elements behind a bare type name where braces may stand.
#[cycle(reading)]
fn name_operand(
    tokens: &[Token],
    out: &mut Writer,
    fuel: usize,
    bare: bool,
    at: usize,
) -> Result<Option<usize>, Memory>
    requires { at < length tokens.now }
    ensures { IfOk result (λ r. Gives out.old.posts.items r out.new.posts.items (name_by tokens.now (read tokens.now fuel) bare at out.old.posts.items)) }
{
    if !bare {
        return name_use(out, at);
    }
    let mark = out.posts.len();
    let mid = named_type(tokens, out, at)?;
    if !is_mark(tokens, mid, Mark::OpenBrace) {
        undo(out, mark);
        return name_use(out, at);
    }
    let Some(to) = elems(tokens, out, fuel, mid)? else {
        undo(out, mark);
        return name_use(out, at);
    };
    close(out, NodeKind::Composite, at, to, mark)?;
    Ok(Some(to))
}

#[cycle(reading)]
fn parens(
    tokens: &[Token],
    out: &mut Writer,
    fuel: usize,
    at: usize,
) -> Result<Option<usize>, Memory>
    requires { at < length tokens.now }
    ensures { IfOk result (λ r. Gives out.old.posts.items r out.new.posts.items (parens_by tokens.now (read tokens.now fuel) at out.old.posts.items)) }
{
    let mark = out.posts.len();
    let Some(inner) = either(tokens, out, fuel, at + 1)? else {
        return Ok(None);
    };
    let Some(to) = expect(tokens, out, inner, Mark::CloseParen, mark) else {
        return Ok(None);
    };
    close(out, NodeKind::Parens, at, to, mark)?;
    Ok(Some(to))
}

// A function literal, a conversion to a function's type, or such a type.
#[cycle(reading)]
fn func_operand(
    tokens: &[Token],
    out: &mut Writer,
    fuel: usize,
    types: bool,
    at: usize,
) -> Result<Option<usize>, Memory>
    requires { at < length tokens.now }
    ensures { IfOk result (λ r. Gives out.old.posts.items r out.new.posts.items (func_by tokens.now (read tokens.now fuel) types at out.old.posts.items)) }
{
    let mark = out.posts.len();
    let Some(mid) = signature(tokens, out, fuel, at + 1)? else {
        return Ok(None);
    };
    behind_signature(tokens, out, fuel, types, at, mark, mid)
}

#[cycle(reading)]
fn behind_signature(
    tokens: &[Token],
    out: &mut Writer,
    fuel: usize,
    types: bool,
    from: usize,
    mark: usize,
    at: usize,
) -> Result<Option<usize>, Memory>
    requires { mark ≤ vec_len out.old.posts }
    ensures { IfOk result (λ r. Settles mark out.old.posts.items r out.new.posts.items (behind_signature_by tokens.now (read tokens.now fuel) types from mark (at, out.old.posts.items))) }
{
    if !is_mark(tokens, at, Mark::OpenBrace) {
        close(out, NodeKind::FuncType, from, at, mark)?;
        return converted(tokens, out, fuel, types, from, mark, at);
    }
    let Some(to) = block(tokens, out, fuel, at)? else {
        close(out, NodeKind::FuncType, from, at, mark)?;
        return Ok(keep(out, types, at, mark));
    };
    close(out, NodeKind::FuncLiteral, from, to, mark)?;
    Ok(Some(to))
}

#[cycle(reading)]
fn open_array(
    tokens: &[Token],
    out: &mut Writer,
    fuel: usize,
    at: usize,
) -> Result<Option<usize>, Memory>
    requires { at + 2 < length tokens.now }
    ensures { IfOk result (λ r. Gives out.old.posts.items r out.new.posts.items (open_array_by tokens.now (read tokens.now fuel) at out.old.posts.items)) }
{
    let mark = out.posts.len();
    let Some(mid) = any_type(tokens, out, fuel, at + 3)? else {
        return Ok(None);
    };
    close(out, NodeKind::OpenArrayType, at, mid, mark)?;
    let Some(to) = elems(tokens, out, fuel, mid)? else {
        undo(out, mark);
        return Ok(None);
    };
    close(out, NodeKind::Composite, at, to, mark)?;
    Ok(Some(to))
}

// A composite literal, a conversion, or a type.
#[cycle(reading)]
fn type_operand(
    tokens: &[Token],
    out: &mut Writer,
    fuel: usize,
    types: bool,
    at: usize,
) -> Result<Option<usize>, Memory>
    ensures { IfOk result (λ r. Gives out.old.posts.items r out.new.posts.items (type_operand_by tokens.now (read tokens.now fuel) types at out.old.posts.items)) }
{
    let mark = out.posts.len();
    let Some(mid) = only_type(tokens, out, fuel, at)? else {
        return Ok(None);
    };
    behind_type(tokens, out, fuel, types, at, mark, mid)
}

#[cycle(reading)]
fn behind_type(
    tokens: &[Token],
    out: &mut Writer,
    fuel: usize,
    types: bool,
    from: usize,
    mark: usize,
    at: usize,
) -> Result<Option<usize>, Memory>
    requires { mark ≤ vec_len out.old.posts }
    ensures { IfOk result (λ r. Settles mark out.old.posts.items r out.new.posts.items (behind_type_by tokens.now (read tokens.now fuel) types from mark (at, out.old.posts.items))) }
{
    if !(composite_at(tokens, from) && is_mark(tokens, at, Mark::OpenBrace)) {
        return converted(tokens, out, fuel, types, from, mark, at);
    }
    let Some(to) = elems(tokens, out, fuel, at)? else {
        return Ok(keep(out, types, at, mark));
    };
    close(out, NodeKind::Composite, from, to, mark)?;
    Ok(Some(to))
}

#[cycle(reading)]
fn converted(
    tokens: &[Token],
    out: &mut Writer,
    fuel: usize,
    types: bool,
    from: usize,
    mark: usize,
    at: usize,
) -> Result<Option<usize>, Memory>
    requires { mark ≤ vec_len out.old.posts }
    ensures { IfOk result (λ r. Settles mark out.old.posts.items r out.new.posts.items (converted_by tokens.now (read tokens.now fuel) types from mark (at, out.old.posts.items))) }
{
    if !is_mark(tokens, at, Mark::OpenParen) {
        return Ok(keep(out, types, at, mark));
    }
    let begun = out.posts.len();
    let Some(inner) = level(tokens, out, fuel, 1, true, at + 1)? else {
        return Ok(keep(out, types, at, mark));
    };
    let Some(to) = expect_list(tokens, out, inner, Mark::CloseParen, begun) else {
        return Ok(keep(out, types, at, mark));
    };
    close(out, NodeKind::Conversion, from, to, mark)?;
    Ok(Some(to))
}
