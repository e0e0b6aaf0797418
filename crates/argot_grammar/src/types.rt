// Types. Those that go on to their right are read in a row, so that no call is as deep as they are many.
#![tactic(auto, using(argot_parse_reader::proofs::Steps::read_more, argot_parse_reader::proofs::Steps::read_none, argot_parse_reader::proofs::Grows::kept))]

ghost use Rattle.std.specs.Prelude.{◌≡◌, ◌<◌, ◌≤◌, ◌+◌, ◌^◌, ℕ, List, length, vec_len, IfOk, OnOk, Some};
ghost use Rattle.argot_tree.specs.declared.node_kind.NodeKind.TheVariants as nodes;
ghost use Rattle.argot_tree.specs.Grammar.{AnyType, OnlyType};
ghost use Rattle.argot_parse_reader.specs.Reading.{The, Gives, Settles, closed};
ghost use Rattle.argot_parse_reader.specs.declared.post.Post.{Post};
ghost use Rattle.argot_parse_reader.specs.TypeReader.{named_type_by, type_parens_by, array_by, bracketed_by, map_by, chan_by, receive_by, func_type_by, struct_by, interface_by, formed_by};
ghost use Rattle.argot_parse_reader.specs.Reader.{read};
ghost use Rattle.argot_parse_tokens.specs.Rows.{row_by, formed_row_by, Turns};
ghost use Rattle.argot_grammar.specs.Fronts.{Fronts, whole};

use crate::expressions::level;
use crate::fields::{elements, fields};
use crate::signatures::params;
use argot_parse_tokens::{
    Row, Turn, Writer, begin, close, close_row, expect, is_dotted, is_mark, is_name, is_word,
    missing, name_behind_dot, put, type_at, undo,
};
use argot_text::Memory;
use argot_tree::{Keyword, Mark, NodeKind, Token};

/// The type that the name there is, and the name behind the point with it.
pub fn named_type(tokens: &[Token], out: &mut Writer, at: usize) -> Result<usize, Memory>
    requires { at < length tokens.now }
    ensures { IfOk result (λ to. named_type_by tokens.now at out.old.posts.items ≡ Some (to, out.new.posts.items)) }
{
    if is_dotted(tokens, at) {
        put(out, NodeKind::QualifiedType, at, at + 3)?;
        return Ok(at + 3);
    }
    name_behind_dot(tokens, out, at + 1);
    put(out, NodeKind::TypeName, at, at + 1)?;
    Ok(at + 1)
}

/// What stands at the front of a type that is no expression and no pointer.
#[derive(Clone, Copy, Debug)]
pub enum Front {
    /// The whole type, up to there.
    Whole(usize),
    /// A type begins there, and the whole is a node over it and what stands before it.
    Before(NodeKind, usize),
    /// The result of a function's type begins there.
    Result(usize),
}

/// A type.
#[cycle(reading)]
pub fn any_type(
    tokens: &[Token],
    out: &mut Writer,
    fuel: usize,
    at: usize,
) -> Result<Option<usize>, Memory>
    ensures { IfOk result (λ r. Gives out.old.posts.items r out.new.posts.items (read tokens.now fuel (The AnyType) at out.old.posts.items)) }
{
    if fuel == 0 {
        return Ok(None);
    }
    let mark = out.posts.len();
    let row = Row {
        begun: Vec::new(out.alloc),
        at,
        fuel,
    };
    row_type(tokens, out, row, mark)
}

/// A type that is no expression and no pointer.
#[cycle(reading)]
pub fn only_type(
    tokens: &[Token],
    out: &mut Writer,
    fuel: usize,
    at: usize,
) -> Result<Option<usize>, Memory>
    ensures { IfOk result (λ r. Gives out.old.posts.items r out.new.posts.items (read tokens.now fuel (The OnlyType) at out.old.posts.items)) }
{
    if fuel == 0 {
        return Ok(None);
    }
    let mark = out.posts.len();
    let mut row = Row {
        begun: Vec::new(out.alloc),
        at,
        fuel,
    };
    match formed_turn(tokens, out, &mut row)? {
        Turn::Missing => Ok(None),
        Turn::End(to) => {
            close_row(out, row, to)?;
            Ok(Some(to))
        }
        Turn::On => row_type(tokens, out, row, mark),
    }
}

// The types of a row, from its last on.
#[cycle(reading)]
fn row_type(
    tokens: &[Token],
    out: &mut Writer,
    begun: Row,
    mark: usize,
) -> Result<Option<usize>, Memory>
    requires { mark ≤ vec_len out.old.posts }
    ensures { IfOk result (λ r. Settles mark out.old.posts.items r out.new.posts.items (row_by tokens.now begun out.old.posts.items)) }
{
    let mut row = begun;
    while row.fuel > 0 {
        match turn(tokens, out, &mut row)? {
            Turn::On => {}
            Turn::End(to) => {
                close_row(out, row, to)?;
                return Ok(Some(to));
            }
            Turn::Missing => {
                undo(out, mark);
                return Ok(None);
            }
        }
    }
    undo(out, mark);
    Ok(None)
}

// One more type of a row.
#[cycle(reading)]
fn turn(tokens: &[Token], out: &mut Writer, row: &mut Row) -> Result<Turn, Memory>
    requires { 0 < row.old.fuel }
    ensures value { IfOk result (λ turn. Turns tokens.now (row_by tokens.now row.old out.old.posts.items) out.old.posts.items turn row.new out.new.posts.items) }
    ensures fewer { OnOk result (row.new.fuel < row.old.fuel) }
{
    let at = row.at;
    let mark = out.posts.len();
    row.fuel -= 1;
    if is_name(tokens, at) {
        let to = named_type(tokens, out, at)?;
        return Ok(Turn::End(to));
    }
    if is_mark(tokens, at, Mark::OpenParen) {
        return match type_parens(tokens, out, row.fuel, at)? {
            Some(to) => Ok(Turn::End(to)),
            None => Ok(Turn::Missing),
        };
    }
    if is_mark(tokens, at, Mark::Star) {
        begin(row, NodeKind::PointerType, mark, at + 1)?;
        return Ok(Turn::On);
    }
    formed_turn(tokens, out, row)
}

// The same where the type is no expression and no pointer.
#[cycle(reading)]
fn formed_turn(tokens: &[Token], out: &mut Writer, row: &mut Row) -> Result<Turn, Memory>
    ensures value { IfOk result (λ turn. Turns tokens.now (formed_row_by tokens.now row.old out.old.posts.items) out.old.posts.items turn row.new out.new.posts.items) }
    ensures fewer { OnOk result (row.new.fuel ≤ row.old.fuel) }
{
    if row.fuel == 0 {
        return Ok(Turn::Missing);
    }
    let at = row.at;
    let mark = out.posts.len();
    row.fuel -= 1;
    match formed(tokens, out, row.fuel, at)? {
        None => Ok(Turn::Missing),
        Some(Front::Whole(to)) => Ok(Turn::End(to)),
        Some(Front::Before(kind, inner)) => {
            begin(row, kind, mark, inner)?;
            Ok(Turn::On)
        }
        Some(Front::Result(inner)) => {
            row.fuel -= 1;
            begin(row, NodeKind::FuncType, mark, at + 1)?;
            begin(row, NodeKind::Signature, mark, inner)?;
            Ok(Turn::On)
        }
    }
}

// The front of a type that is no expression and no pointer.
#[cycle(reading)]
fn formed(
    tokens: &[Token],
    out: &mut Writer,
    fuel: usize,
    at: usize,
) -> Result<Option<Front>, Memory>
    ensures { IfOk result (λ r. Fronts tokens.now fuel at out.old.posts.items r out.new.posts.items (formed_by tokens.now (read tokens.now fuel) at out.old.posts.items)) }
{
    if is_mark(tokens, at, Mark::OpenBracket) {
        return bracketed(tokens, out, fuel, at);
    }
    if is_word(tokens, at, Keyword::Map) {
        return map_front(tokens, out, fuel, at);
    }
    if is_word(tokens, at, Keyword::Chan) {
        return Ok(Some(chan_front(tokens, at)));
    }
    if is_mark(tokens, at, Mark::Arrow) {
        return Ok(receive_front(tokens, out, at));
    }
    if is_word(tokens, at, Keyword::Func) {
        return func_front(tokens, out, fuel, at);
    }
    if is_word(tokens, at, Keyword::Struct) {
        return Ok(whole(struct_type(tokens, out, fuel, at)?));
    }
    if is_word(tokens, at, Keyword::Interface) {
        return Ok(whole(interface_type(tokens, out, fuel, at)?));
    }
    missing(out, at);
    Ok(None)
}

// A type that is read whole.
fn whole(end: Option<usize>) -> Option<Front>
    ensures { result ≡ whole end }
{
    match end {
        Some(to) => Some(Front::Whole(to)),
        None => None,
    }
}

#[cycle(reading)]
fn type_parens(
    tokens: &[Token],
    out: &mut Writer,
    fuel: usize,
    at: usize,
) -> Result<Option<usize>, Memory>
    requires { at < length tokens.now }
    ensures { IfOk result (λ r. Gives out.old.posts.items r out.new.posts.items (type_parens_by tokens.now (read tokens.now fuel) at out.old.posts.items)) }
{
    let mark = out.posts.len();
    let Some(inner) = any_type(tokens, out, fuel, at + 1)? else {
        return Ok(None);
    };
    let Some(to) = expect(tokens, out, inner, Mark::CloseParen, mark) else {
        return Ok(None);
    };
    close(out, NodeKind::TypeParens, at, to, mark)?;
    Ok(Some(to))
}

// An array's length, or the brackets of a slice.
#[cycle(reading)]
fn bracketed(
    tokens: &[Token],
    out: &mut Writer,
    fuel: usize,
    at: usize,
) -> Result<Option<Front>, Memory>
    requires { at < length tokens.now }
    ensures { IfOk result (λ r. Fronts tokens.now fuel at out.old.posts.items r out.new.posts.items (bracketed_by tokens.now (read tokens.now fuel) at out.old.posts.items)) }
{
    if is_mark(tokens, at + 1, Mark::CloseBracket) {
        return Ok(Some(Front::Before(NodeKind::SliceType, at + 2)));
    }
    let mark = out.posts.len();
    let Some(length) = level(tokens, out, fuel, 1, true, at + 1)? else {
        return Ok(None);
    };
    let Some(item) = expect(tokens, out, length, Mark::CloseBracket, mark) else {
        return Ok(None);
    };
    Ok(Some(Front::Before(NodeKind::ArrayType, item)))
}

// A map's key.
#[cycle(reading)]
fn map_front(
    tokens: &[Token],
    out: &mut Writer,
    fuel: usize,
    at: usize,
) -> Result<Option<Front>, Memory>
    requires { at < length tokens.now }
    ensures { IfOk result (λ r. Fronts tokens.now fuel at out.old.posts.items r out.new.posts.items (map_by tokens.now (read tokens.now fuel) at out.old.posts.items)) }
{
    if !is_mark(tokens, at + 1, Mark::OpenBracket) {
        missing(out, at + 1);
        return Ok(None);
    }
    let mark = out.posts.len();
    let Some(key) = any_type(tokens, out, fuel, at + 2)? else {
        return Ok(None);
    };
    let Some(item) = expect(tokens, out, key, Mark::CloseBracket, mark) else {
        return Ok(None);
    };
    Ok(Some(Front::Before(NodeKind::MapType, item)))
}

// `chan`, with the arrow behind it.
fn chan_front(tokens: &[Token], at: usize) -> Front
    requires { at < length tokens.now }
    ensures { (n : ℕ) (out : List Post) → Fronts tokens.now n at out (Some result) out (chan_by tokens.now (read tokens.now n) at out) }
{
    if is_mark(tokens, at + 1, Mark::Arrow) {
        Front::Before(NodeKind::SendType, at + 2)
    } else {
        Front::Before(NodeKind::ChanType, at + 1)
    }
}

// An arrow and `chan`.
fn receive_front(tokens: &[Token], out: &mut Writer, at: usize) -> Option<Front>
    requires { at < length tokens.now }
    ensures { (n : ℕ) → Fronts tokens.now n at out.old.posts.items result out.new.posts.items (receive_by tokens.now (read tokens.now n) at out.old.posts.items) }
{
    if is_word(tokens, at + 1, Keyword::Chan) {
        return Some(Front::Before(NodeKind::ReceiveType, at + 2));
    }
    missing(out, at + 1);
    None
}

// A function's parameters, and its result where that is in parentheses or not there.
#[cycle(reading)]
fn func_front(
    tokens: &[Token],
    out: &mut Writer,
    fuel: usize,
    at: usize,
) -> Result<Option<Front>, Memory>
    requires { at < length tokens.now }
    ensures { IfOk result (λ r. Fronts tokens.now fuel at out.old.posts.items r out.new.posts.items (func_type_by tokens.now (read tokens.now fuel) at out.old.posts.items)) }
{
    if fuel == 0 {
        return Ok(None);
    }
    let mark = out.posts.len();
    let Some(mid) = params(tokens, out, fuel - 1, true, at + 1)? else {
        return Ok(None);
    };
    if !is_mark(tokens, mid, Mark::OpenParen) {
        if type_at(tokens, mid) {
            return Ok(Some(Front::Result(mid)));
        }
        close_func(out, at, mid, mark)?;
        return Ok(Some(Front::Whole(mid)));
    }
    let Some(to) = params(tokens, out, fuel - 1, false, mid)? else {
        undo(out, mark);
        return Ok(None);
    };
    close_func(out, at, to, mark)?;
    Ok(Some(Front::Whole(to)))
}

// A signature, and the function's type over it.
fn close_func(out: &mut Writer, at: usize, to: usize, mark: usize) -> Result<(), Memory>
    requires { at < 2 ^ 63 }
    ensures { OnOk result (out.new.posts.items ≡ closed nodes.FuncType at to mark (closed nodes.Signature (at + 1) to mark out.old.posts.items)) }
{
    close(out, NodeKind::Signature, at + 1, to, mark)?;
    close(out, NodeKind::FuncType, at, to, mark)
}

#[cycle(reading)]
fn struct_type(
    tokens: &[Token],
    out: &mut Writer,
    fuel: usize,
    at: usize,
) -> Result<Option<usize>, Memory>
    requires { at < length tokens.now }
    ensures { IfOk result (λ r. Gives out.old.posts.items r out.new.posts.items (struct_by tokens.now (read tokens.now fuel) at out.old.posts.items)) }
{
    if !is_mark(tokens, at + 1, Mark::OpenBrace) {
        missing(out, at + 1);
        return Ok(None);
    }
    let mark = out.posts.len();
    let Some(inner) = fields(tokens, out, fuel, at + 2)? else {
        return Ok(None);
    };
    let Some(to) = expect(tokens, out, inner, Mark::CloseBrace, mark) else {
        return Ok(None);
    };
    close(out, NodeKind::StructType, at, to, mark)?;
    Ok(Some(to))
}

#[cycle(reading)]
fn interface_type(
    tokens: &[Token],
    out: &mut Writer,
    fuel: usize,
    at: usize,
) -> Result<Option<usize>, Memory>
    requires { at < length tokens.now }
    ensures { IfOk result (λ r. Gives out.old.posts.items r out.new.posts.items (interface_by tokens.now (read tokens.now fuel) at out.old.posts.items)) }
{
    if !is_mark(tokens, at + 1, Mark::OpenBrace) {
        missing(out, at + 1);
        return Ok(None);
    }
    let mark = out.posts.len();
    let Some(inner) = elements(tokens, out, fuel, at + 2)? else {
        return Ok(None);
    };
    let Some(to) = expect(tokens, out, inner, Mark::CloseBrace, mark) else {
        return Ok(None);
    };
    close(out, NodeKind::InterfaceType, at, to, mark)?;
    Ok(Some(to))
}
