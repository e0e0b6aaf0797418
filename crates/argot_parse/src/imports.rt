// Imports.
#![tactic(auto, using(argot_parse_reader::proofs::Steps::read_more, argot_parse_reader::proofs::Steps::read_none, argot_parse_reader::proofs::Grows::kept))]

ghost use Rattle.std.specs.Prelude.{◌≡◌, ◌<◌, ◌≤◌, ◌+◌, ◌-◌, length, IfOk, OnOk, IfSome, IfNone, Option, Some, None, vec_len, take, Bool, true, false};
ghost use Rattle.argot_tree.specs.Grammar.{Imports, Import, Specs, Spec};
ghost use Rattle.argot_parse_reader.specs.Reading.{The, Gives, closed, put};
ghost use Rattle.argot_parse_reader.specs.FileReader.{dot_spec_by, named_spec_by};
ghost use Rattle.argot_parse_reader.specs.Reader.{read};

use argot_grammar::closed_by_paren;
use argot_parse_tokens::{
    Writer, close, expect, is_mark, is_name, is_word, missing, put, semicolon_at, text_at, undo,
};
use argot_text::Memory;
use argot_tree::{Keyword, Mark, NodeKind, Token};

/// The imports, each up to its semicolon.
pub fn imports(
    tokens: &[Token],
    out: &mut Writer,
    steps: usize,
    first: usize,
) -> Result<Option<usize>, Memory>
    ensures { IfOk result (λ r. Gives out.old.posts.items r out.new.posts.items (read tokens.now steps (The Imports) first out.old.posts.items)) }
{
    let mark = out.posts.len();
    let mut at = first;
    let mut fuel = steps;
    while fuel > 0 {
        fuel -= 1;
        if !is_word(tokens, at, Keyword::Import) {
            return Ok(Some(at));
        }
        let Some(to) = import(tokens, out, fuel, at)? else {
            undo(out, mark);
            return Ok(None);
        };
        if !semicolon_at(tokens, to) {
            missing(out, to);
            undo(out, mark);
            return Ok(None);
        }
        at = to + 1;
    }
    undo(out, mark);
    Ok(None)
}

// One import, or a group of them.
fn import(
    tokens: &[Token],
    out: &mut Writer,
    fuel: usize,
    at: usize,
) -> Result<Option<usize>, Memory>
    requires { at < length tokens.now }
    ensures { IfOk result (λ r. Gives out.old.posts.items r out.new.posts.items (read tokens.now fuel (The Import) at out.old.posts.items)) }
{
    if fuel == 0 {
        return Ok(None);
    }
    if !is_word(tokens, at, Keyword::Import) {
        return Ok(None);
    }
    let mark = out.posts.len();
    if !is_mark(tokens, at + 1, Mark::OpenParen) {
        let Some(to) = spec(tokens, out, fuel - 1, at + 1)? else {
            return Ok(None);
        };
        close(out, NodeKind::Import, at, to, mark)?;
        return Ok(Some(to));
    }
    let Some(inner) = specs(tokens, out, fuel - 1, at + 2)? else {
        return Ok(None);
    };
    let Some(to) = expect(tokens, out, inner, Mark::CloseParen, mark) else {
        return Ok(None);
    };
    close(out, NodeKind::ImportGroup, at, to, mark)?;
    Ok(Some(to))
}

// The imports of a group, up to its parenthesis.
fn specs(
    tokens: &[Token],
    out: &mut Writer,
    steps: usize,
    first: usize,
) -> Result<Option<usize>, Memory>
    ensures { IfOk result (λ r. Gives out.old.posts.items r out.new.posts.items (read tokens.now steps (The Specs) first out.old.posts.items)) }
{
    let mark = out.posts.len();
    let mut at = first;
    let mut fuel = steps;
    while fuel > 0 {
        fuel -= 1;
        if is_mark(tokens, at, Mark::CloseParen) {
            return Ok(Some(at));
        }
        let Some(to) = spec(tokens, out, fuel, at)? else {
            undo(out, mark);
            return Ok(None);
        };
        if !semicolon_at(tokens, to) {
            return Ok(closed_by_paren(tokens, out, to, mark));
        }
        at = to + 1;
    }
    undo(out, mark);
    Ok(None)
}

// A path, with a point or a name before it or alone.
fn spec(tokens: &[Token], out: &mut Writer, fuel: usize, at: usize) -> Result<Option<usize>, Memory>
    ensures { IfOk result (λ r. Gives out.old.posts.items r out.new.posts.items (read tokens.now fuel (The Spec) at out.old.posts.items)) }
{
    if fuel == 0 {
        return Ok(None);
    }
    let mark = out.posts.len();
    if text_at(tokens, at) {
        put(out, NodeKind::ImportPath, at, at + 1)?;
        close(out, NodeKind::Spec, at, at + 1, mark)?;
        return Ok(Some(at + 1));
    }
    if is_mark(tokens, at, Mark::Dot) {
        return dot_spec(tokens, out, at);
    }
    if is_name(tokens, at) {
        return named_spec(tokens, out, at);
    }
    missing(out, at);
    Ok(None)
}

fn dot_spec(tokens: &[Token], out: &mut Writer, at: usize) -> Result<Option<usize>, Memory>
    requires { at < length tokens.now }
    ensures { IfOk result (λ r. Gives out.old.posts.items r out.new.posts.items (dot_spec_by tokens.now at out.old.posts.items)) }
{
    if !text_at(tokens, at + 1) {
        missing(out, at + 1);
        return Ok(None);
    }
    let mark = out.posts.len();
    put(out, NodeKind::ImportPath, at + 1, at + 2)?;
    close(out, NodeKind::DotSpec, at, at + 2, mark)?;
    Ok(Some(at + 2))
}

fn named_spec(tokens: &[Token], out: &mut Writer, at: usize) -> Result<Option<usize>, Memory>
    requires { at < length tokens.now }
    ensures { IfOk result (λ r. Gives out.old.posts.items r out.new.posts.items (named_spec_by tokens.now at out.old.posts.items)) }
{
    if !text_at(tokens, at + 1) {
        missing(out, at + 1);
        return Ok(None);
    }
    let mark = out.posts.len();
    put(out, NodeKind::DeclName, at, at + 1)?;
    put(out, NodeKind::ImportPath, at + 1, at + 2)?;
    close(out, NodeKind::NamedSpec, at, at + 2, mark)?;
    Ok(Some(at + 2))
}
