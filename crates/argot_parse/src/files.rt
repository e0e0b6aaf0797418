// A file: its package, its imports, its declarations and functions.
#![tactic(auto, using(argot_parse_reader::proofs::Steps::read_more, argot_parse_reader::proofs::Steps::read_none, argot_parse_reader::proofs::Grows::kept))]

ghost use Rattle.std.specs.Prelude.{◌≡◌, ◌<◌, ◌≤◌, ◌+◌, ◌-◌, length, IfOk, OnOk, IfSome, IfNone, Option, Some, None, vec_len, take, Bool, true, false, IsTrue};
ghost use Rattle.argot_tree.specs.TokensAt.{kind_at};
ghost use Rattle.argot_tree.specs.Grammar.{File, Tops, Top, MaybeTypeParams, MaybeBody};
ghost use Rattle.argot_parse_reader.specs.Reading.{The, Gives, closed, put};
ghost use Rattle.argot_parse_reader.specs.FileReader.{is_end, file_parts_by, func_parts_by, func_decl_by};
ghost use Rattle.argot_parse_reader.specs.Reader.{read};

use crate::imports::imports;
use crate::receivers::maybe_receiver;
use argot_grammar::{block, decl, signature, type_params};
use argot_parse_tokens::{
    Writer, close, is_mark, is_name, is_word, missing, put, semicolon_at, undo,
};
use argot_text::Memory;
use argot_tree::{Keyword, Mark, NodeKind, Token};

/// A file.
pub fn file(
    tokens: &[Token],
    out: &mut Writer,
    fuel: usize,
    at: usize,
) -> Result<Option<usize>, Memory>
    ensures { IfOk result (λ r. Gives out.old.posts.items r out.new.posts.items (read tokens.now fuel (The File) at out.old.posts.items)) }
{
    if fuel == 0 {
        return Ok(None);
    }
    if !is_word(tokens, at, Keyword::Package) {
        missing(out, at);
        return Ok(None);
    }
    if !is_name(tokens, at + 1) {
        missing(out, at + 1);
        return Ok(None);
    }
    if !semicolon_at(tokens, at + 2) {
        missing(out, at + 2);
        return Ok(None);
    }
    file_parts(tokens, out, fuel - 1, at)
}

// What stands behind the package clause, with its name.
fn file_parts(
    tokens: &[Token],
    out: &mut Writer,
    fuel: usize,
    at: usize,
) -> Result<Option<usize>, Memory>
    requires { at + 2 < length tokens.now }
    ensures { IfOk result (λ r. Gives out.old.posts.items r out.new.posts.items (file_parts_by (read tokens.now fuel) at out.old.posts.items)) }
{
    let mark = out.posts.len();
    put(out, NodeKind::DeclName, at + 1, at + 2)?;
    let Some(mid) = imports(tokens, out, fuel, at + 3)? else {
        undo(out, mark);
        return Ok(None);
    };
    let Some(to) = tops(tokens, out, fuel, mid)? else {
        undo(out, mark);
        return Ok(None);
    };
    close(out, NodeKind::File, at, to, mark)?;
    Ok(Some(to))
}

fn end_at(tokens: &[Token], at: usize) -> bool
    ensures { result ≡ is_end (kind_at tokens.now at) }
{
    match tokens.get(at) {
        Some(_) => false,
        None => true,
    }
}

// Declarations and functions up to the end of the file, each up to its semicolon.
fn tops(
    tokens: &[Token],
    out: &mut Writer,
    steps: usize,
    first: usize,
) -> Result<Option<usize>, Memory>
    ensures { IfOk result (λ r. Gives out.old.posts.items r out.new.posts.items (read tokens.now steps (The Tops) first out.old.posts.items)) }
{
    let mark = out.posts.len();
    let mut at = first;
    let mut fuel = steps;
    while fuel > 0 {
        fuel -= 1;
        if end_at(tokens, at) {
            return Ok(Some(at));
        }
        let Some(to) = top(tokens, out, fuel, at)? else {
            undo(out, mark);
            return Ok(None);
        };
        if !semicolon_at(tokens, to) {
            missing(out, to);
            undo(out, mark);
            return Ok(None);
        }
        at = to + 1;
    }
    undo(out, mark);
    Ok(None)
}

fn top(tokens: &[Token], out: &mut Writer, fuel: usize, at: usize) -> Result<Option<usize>, Memory>
    ensures { IfOk result (λ r. Gives out.old.posts.items r out.new.posts.items (read tokens.now fuel (The Top) at out.old.posts.items)) }
{
    if fuel == 0 {
        return Ok(None);
    }
    if is_word(tokens, at, Keyword::Func) {
        return func_decl(tokens, out, fuel - 1, at);
    }
    decl(tokens, out, fuel - 1, at)
}

// A function or a method.
fn func_decl(
    tokens: &[Token],
    out: &mut Writer,
    fuel: usize,
    at: usize,
) -> Result<Option<usize>, Memory>
    requires { at < length tokens.now }
    ensures { IfOk result (λ r. Gives out.old.posts.items r out.new.posts.items (func_decl_by tokens.now (read tokens.now fuel) at out.old.posts.items)) }
{
    let mark = out.posts.len();
    let Some(named) = maybe_receiver(tokens, out, fuel, at + 1)? else {
        return Ok(None);
    };
    if !is_name(tokens, named) {
        missing(out, named);
        undo(out, mark);
        return Ok(None);
    }
    put(out, NodeKind::DeclName, named, named + 1)?;
    let Some(to) = func_parts(tokens, out, fuel, named + 1)? else {
        undo(out, mark);
        return Ok(None);
    };
    close(out, NodeKind::FuncDecl, at, to, mark)?;
    Ok(Some(to))
}

// What stands behind a function's name.
fn func_parts(
    tokens: &[Token],
    out: &mut Writer,
    fuel: usize,
    at: usize,
) -> Result<Option<usize>, Memory>
    ensures { IfOk result (λ r. Gives out.old.posts.items r out.new.posts.items (func_parts_by (read tokens.now fuel) at out.old.posts.items)) }
{
    let mark = out.posts.len();
    let Some(shown) = maybe_type_params(tokens, out, fuel, at)? else {
        return Ok(None);
    };
    let Some(signed) = signature(tokens, out, fuel, shown)? else {
        undo(out, mark);
        return Ok(None);
    };
    let Some(to) = maybe_body(tokens, out, fuel, signed)? else {
        undo(out, mark);
        return Ok(None);
    };
    Ok(Some(to))
}

fn maybe_type_params(
    tokens: &[Token],
    out: &mut Writer,
    fuel: usize,
    at: usize,
) -> Result<Option<usize>, Memory>
    ensures { IfOk result (λ r. Gives out.old.posts.items r out.new.posts.items (read tokens.now fuel (The MaybeTypeParams) at out.old.posts.items)) }
{
    if fuel == 0 {
        return Ok(None);
    }
    if !is_mark(tokens, at, Mark::OpenBracket) {
        return Ok(Some(at));
    }
    type_params(tokens, out, fuel - 1, at)
}

fn maybe_body(
    tokens: &[Token],
    out: &mut Writer,
    fuel: usize,
    at: usize,
) -> Result<Option<usize>, Memory>
    ensures { IfOk result (λ r. Gives out.old.posts.items r out.new.posts.items (read tokens.now fuel (The MaybeBody) at out.old.posts.items)) }
{
    if fuel == 0 {
        return Ok(None);
    }
    if !is_mark(tokens, at, Mark::OpenBrace) {
        return Ok(Some(at));
    }
    block(tokens, out, fuel - 1, at)
}
