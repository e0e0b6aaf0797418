// Declarations, and tokens with balanced brackets.
#![tactic(auto, using(argot_parse_reader::proofs::Steps::read_more, argot_parse_reader::proofs::Steps::read_none, argot_parse_reader::proofs::Grows::kept))]

ghost use Rattle.std.specs.Prelude.{◌≡◌, ◌<◌, ◌≤◌, length, IfOk, IfSome, IfNone, vec_len, take, true, false};
ghost use Rattle.argot_tree.specs.Grammar.{Constant, Variable, Decl, Declared, DeclaredList, MaybeTyped, MaybeValues, TypeParams, Balanced};
ghost use Rattle.argot_tree.specs.declared.mark.Mark.TheVariants.{CloseParen};
ghost use Rattle.argot_parse_reader.specs.Reading.{The, Gives, Settles, is_mark};
ghost use Rattle.argot_parse_reader.specs.DeclarationReader.{values_by, typed_values_by, declared_by, named_type_by, type_by, sort_by, group_kind, decl_kind};
ghost use Rattle.argot_grammar.specs.Sorts.{sort_of};
ghost use Rattle.argot_parse_reader.specs.FileReader.{in_brackets_by};
ghost use Rattle.argot_parse_reader.specs.Reader.{read};

use crate::expressions::expressions;
use crate::fields::names;
use crate::types::any_type;
use argot_parse_tokens::{
    Writer, close, expect, is_generic, is_mark, is_name, is_word, missing, no_bracket_at,
    opens_bracket, put, semicolon_at, type_at, undo,
};
use argot_text::Memory;
use argot_tree::{Keyword, Mark, NodeKind, Token};

/// What a declaration declares.
#[derive(Clone, Copy, Debug)]
pub enum Declares {
    Constants,
    Variables,
    Types,
}

fn group_kind(sort: Declares) -> NodeKind
    ensures { result ≡ group_kind (sort_of sort) }
{
    match sort {
        Declares::Constants => NodeKind::ConstGroup,
        Declares::Variables => NodeKind::VarGroup,
        Declares::Types => NodeKind::TypeGroup,
    }
}

fn decl_kind(sort: Declares) -> NodeKind
    ensures { result ≡ decl_kind (sort_of sort) }
{
    match sort {
        Declares::Constants => NodeKind::ConstDecl,
        Declares::Variables => NodeKind::VarDecl,
        Declares::Types => NodeKind::TypeDecl,
    }
}

/// A declaration.
#[cycle(reading)]
pub fn decl(
    tokens: &[Token],
    out: &mut Writer,
    fuel: usize,
    at: usize,
) -> Result<Option<usize>, Memory>
    ensures { IfOk result (λ r. Gives out.old.posts.items r out.new.posts.items (read tokens.now fuel (The Decl) at out.old.posts.items)) }
{
    if fuel == 0 {
        return Ok(None);
    }
    if is_word(tokens, at, Keyword::Const) {
        return sorted(tokens, out, fuel - 1, Declares::Constants, at);
    }
    if is_word(tokens, at, Keyword::Var) {
        return sorted(tokens, out, fuel - 1, Declares::Variables, at);
    }
    if is_word(tokens, at, Keyword::TypeWord) {
        return sorted(tokens, out, fuel - 1, Declares::Types, at);
    }
    missing(out, at);
    Ok(None)
}

// A declaration behind its keyword.
#[cycle(reading)]
fn sorted(
    tokens: &[Token],
    out: &mut Writer,
    fuel: usize,
    sort: Declares,
    at: usize,
) -> Result<Option<usize>, Memory>
    requires { at < length tokens.now }
    ensures { IfOk result (λ r. Gives out.old.posts.items r out.new.posts.items (sort_by tokens.now (read tokens.now fuel) (sort_of sort) at out.old.posts.items)) }
{
    let mark = out.posts.len();
    if is_mark(tokens, at + 1, Mark::OpenParen) {
        let Some(inner) = declared_list(tokens, out, fuel, sort, at + 2)? else {
            return Ok(None);
        };
        let Some(to) = expect(tokens, out, inner, Mark::CloseParen, mark) else {
            return Ok(None);
        };
        close(out, group_kind(sort), at, to, mark)?;
        return Ok(Some(to));
    }
    let Some(to) = declared(tokens, out, fuel, sort, at + 1)? else {
        return Ok(None);
    };
    close(out, decl_kind(sort), at, to, mark)?;
    Ok(Some(to))
}

// Specifications up to their parenthesis.
#[cycle(reading)]
fn declared_list(
    tokens: &[Token],
    out: &mut Writer,
    steps: usize,
    sort: Declares,
    first: usize,
) -> Result<Option<usize>, Memory>
    ensures { IfOk result (λ r. Gives out.old.posts.items r out.new.posts.items (read tokens.now steps (The (DeclaredList (sort_of sort))) first out.old.posts.items)) }
{
    let mark = out.posts.len();
    let mut at = first;
    let mut fuel = steps;
    while fuel > 0 {
        fuel -= 1;
        if is_mark(tokens, at, Mark::CloseParen) {
            return Ok(Some(at));
        }
        let Some(to) = declared(tokens, out, fuel, sort, at)? else {
            undo(out, mark);
            return Ok(None);
        };
        if !semicolon_at(tokens, to) {
            return Ok(closed_by_paren(tokens, out, to, mark));
        }
        at = to + 1;
    }
    undo(out, mark);
    Ok(None)
}

// A list ends where its parenthesis stands.
pub fn closed_by_paren(tokens: &[Token], out: &mut Writer, at: usize, mark: usize) -> Option<usize>
    ensures some { IfSome result (λ to. (is_mark tokens.now at CloseParen ≡ true) × (to ≡ at) × (out.new.posts ≡ out.old.posts)) }
    ensures none { IfNone result ((is_mark tokens.now at CloseParen ≡ false) × (out.new.posts.items ≡ take mark out.old.posts.items)) }
{
    if is_mark(tokens, at, Mark::CloseParen) {
        return Some(at);
    }
    missing(out, at);
    undo(out, mark);
    None
}

#[cycle(reading)]
fn declared(
    tokens: &[Token],
    out: &mut Writer,
    fuel: usize,
    sort: Declares,
    at: usize,
) -> Result<Option<usize>, Memory>
    ensures { IfOk result (λ r. Gives out.old.posts.items r out.new.posts.items (read tokens.now fuel (The (Declared (sort_of sort))) at out.old.posts.items)) }
{
    if fuel == 0 {
        return Ok(None);
    }
    match sort {
        Declares::Constants => constants(tokens, out, fuel - 1, at),
        Declares::Variables => variables(tokens, out, fuel - 1, at),
        Declares::Types => type_spec(tokens, out, fuel - 1, at),
    }
}

// `=` and values.
#[cycle(reading)]
fn values(
    tokens: &[Token],
    out: &mut Writer,
    fuel: usize,
    at: usize,
) -> Result<Option<usize>, Memory>
    ensures { IfOk result (λ r. Gives out.old.posts.items r out.new.posts.items (values_by tokens.now (read tokens.now fuel) (at, out.old.posts.items))) }
{
    if !is_mark(tokens, at, Mark::Assign) {
        missing(out, at);
        return Ok(None);
    }
    let mark = out.posts.len();
    let Some(to) = expressions(tokens, out, fuel, true, at + 1)? else {
        return Ok(None);
    };
    close(out, NodeKind::Exprs, at + 1, to, mark)?;
    Ok(Some(to))
}

#[cycle(reading)]
fn maybe_values(
    tokens: &[Token],
    out: &mut Writer,
    fuel: usize,
    at: usize,
) -> Result<Option<usize>, Memory>
    ensures { IfOk result (λ r. Gives out.old.posts.items r out.new.posts.items (read tokens.now fuel (The MaybeValues) at out.old.posts.items)) }
{
    if fuel == 0 {
        return Ok(None);
    }
    let Some(to) = values(tokens, out, fuel - 1, at)? else {
        return Ok(Some(at));
    };
    Ok(Some(to))
}

#[cycle(reading)]
fn maybe_typed(
    tokens: &[Token],
    out: &mut Writer,
    fuel: usize,
    at: usize,
) -> Result<Option<usize>, Memory>
    ensures { IfOk result (λ r. Gives out.old.posts.items r out.new.posts.items (read tokens.now fuel (The MaybeTyped) at out.old.posts.items)) }
{
    if fuel == 0 {
        return Ok(None);
    }
    if type_at(tokens, at) {
        return any_type(tokens, out, fuel - 1, at);
    }
    Ok(Some(at))
}

#[cycle(reading)]
fn typed_values(
    tokens: &[Token],
    out: &mut Writer,
    fuel: usize,
    at: usize,
) -> Result<Option<usize>, Memory>
    ensures { IfOk result (λ r. Gives out.old.posts.items r out.new.posts.items (typed_values_by tokens.now (read tokens.now fuel) (at, out.old.posts.items))) }
{
    let mark = out.posts.len();
    let Some(mid) = maybe_typed(tokens, out, fuel, at)? else {
        return Ok(None);
    };
    let Some(to) = values(tokens, out, fuel, mid)? else {
        undo(out, mark);
        return Ok(None);
    };
    Ok(Some(to))
}

// Names of constants, with their type and values or without.
#[cycle(reading)]
fn constants(
    tokens: &[Token],
    out: &mut Writer,
    fuel: usize,
    at: usize,
) -> Result<Option<usize>, Memory>
    ensures { IfOk result (λ r. Gives out.old.posts.items r out.new.posts.items (declared_by tokens.now (read tokens.now fuel) Constant at out.old.posts.items)) }
{
    let mark = out.posts.len();
    let Some(mid) = names(tokens, out, fuel, at)? else {
        return Ok(None);
    };
    close(out, NodeKind::Names, at, mid, mark)?;
    let Some(to) = typed_values(tokens, out, fuel, mid)? else {
        close(out, NodeKind::ConstSpec, at, mid, mark)?;
        return Ok(Some(mid));
    };
    close(out, NodeKind::ConstSpec, at, to, mark)?;
    Ok(Some(to))
}

// Names of variables, with their type, values or both.
#[cycle(reading)]
fn variables(
    tokens: &[Token],
    out: &mut Writer,
    fuel: usize,
    at: usize,
) -> Result<Option<usize>, Memory>
    ensures { IfOk result (λ r. Gives out.old.posts.items r out.new.posts.items (declared_by tokens.now (read tokens.now fuel) Variable at out.old.posts.items)) }
{
    let mark = out.posts.len();
    let Some(mid) = names(tokens, out, fuel, at)? else {
        return Ok(None);
    };
    close(out, NodeKind::Names, at, mid, mark)?;
    if is_mark(tokens, mid, Mark::Assign) {
        let Some(to) = values(tokens, out, fuel, mid)? else {
            undo(out, mark);
            return Ok(None);
        };
        close(out, NodeKind::VarSpec, at, to, mark)?;
        return Ok(Some(to));
    }
    let Some(behind) = any_type(tokens, out, fuel, mid)? else {
        undo(out, mark);
        return Ok(None);
    };
    let Some(to) = maybe_values(tokens, out, fuel, behind)? else {
        undo(out, mark);
        return Ok(None);
    };
    close(out, NodeKind::VarSpec, at, to, mark)?;
    Ok(Some(to))
}

// The name of a type, its parameters, and what it is.
#[cycle(reading)]
fn type_spec(
    tokens: &[Token],
    out: &mut Writer,
    fuel: usize,
    at: usize,
) -> Result<Option<usize>, Memory>
    ensures { IfOk result (λ r. Gives out.old.posts.items r out.new.posts.items (type_by tokens.now (read tokens.now fuel) at out.old.posts.items)) }
{
    if !is_name(tokens, at) {
        missing(out, at);
        return Ok(None);
    }
    let mark = out.posts.len();
    put(out, NodeKind::DeclName, at, at + 1)?;
    if !is_generic(tokens, at) {
        return named_type(tokens, out, fuel, at, mark, at + 1);
    }
    let Some(mid) = type_params(tokens, out, fuel, at + 1)? else {
        undo(out, mark);
        return Ok(None);
    };
    named_type(tokens, out, fuel, at, mark, mid)
}

// A declared type behind its name and its parameters.
#[cycle(reading)]
fn named_type(
    tokens: &[Token],
    out: &mut Writer,
    fuel: usize,
    from: usize,
    mark: usize,
    at: usize,
) -> Result<Option<usize>, Memory>
    requires { mark ≤ vec_len out.old.posts }
    ensures { IfOk result (λ r. Settles mark out.old.posts.items r out.new.posts.items (named_type_by tokens.now (read tokens.now fuel) from (take mark out.old.posts.items) (at, out.old.posts.items))) }
{
    if is_mark(tokens, at, Mark::Assign) {
        let Some(to) = any_type(tokens, out, fuel, at + 1)? else {
            undo(out, mark);
            return Ok(None);
        };
        close(out, NodeKind::AliasSpec, from, to, mark)?;
        return Ok(Some(to));
    }
    let Some(to) = any_type(tokens, out, fuel, at)? else {
        undo(out, mark);
        return Ok(None);
    };
    close(out, NodeKind::TypeSpec, from, to, mark)?;
    Ok(Some(to))
}

/// Type parameters in their brackets.
pub fn type_params(
    tokens: &[Token],
    out: &mut Writer,
    fuel: usize,
    at: usize,
) -> Result<Option<usize>, Memory>
    ensures { IfOk result (λ r. Gives out.old.posts.items r out.new.posts.items (read tokens.now fuel (The TypeParams) at out.old.posts.items)) }
{
    if fuel == 0 {
        return Ok(None);
    }
    if !is_mark(tokens, at, Mark::OpenBracket) {
        missing(out, at);
        return Ok(None);
    }
    if !is_name(tokens, at + 1) {
        missing(out, at + 1);
        return Ok(None);
    }
    let mark = out.posts.len();
    let Some(inner) = balanced(tokens, out, fuel - 1, at + 2)? else {
        return Ok(None);
    };
    let Some(to) = expect(tokens, out, inner, Mark::CloseBracket, mark) else {
        return Ok(None);
    };
    close(out, NodeKind::TypeParams, at, to, mark)?;
    Ok(Some(to))
}

/// Tokens with balanced brackets.
#[cycle(brackets)]
pub fn balanced(
    tokens: &[Token],
    out: &mut Writer,
    steps: usize,
    first: usize,
) -> Result<Option<usize>, Memory>
    ensures { IfOk result (λ r. Gives out.old.posts.items r out.new.posts.items (read tokens.now steps (The Balanced) first out.old.posts.items)) }
{
    let mark = out.posts.len();
    let mut at = first;
    let mut fuel = steps;
    while fuel > 0 {
        fuel -= 1;
        if no_bracket_at(tokens, at) {
            at += 1;
            continue;
        }
        if !opens_bracket(tokens, at) {
            return Ok(Some(at));
        }
        let Some(to) = in_brackets(tokens, out, fuel, at)? else {
            undo(out, mark);
            return Ok(None);
        };
        at = to;
    }
    undo(out, mark);
    Ok(None)
}

#[cycle(brackets)]
fn in_brackets(
    tokens: &[Token],
    out: &mut Writer,
    fuel: usize,
    at: usize,
) -> Result<Option<usize>, Memory>
    ensures { IfOk result (λ r. Gives out.old.posts.items r out.new.posts.items (in_brackets_by tokens.now (read tokens.now fuel) at out.old.posts.items)) }
{
    let mark = out.posts.len();
    if is_mark(tokens, at, Mark::OpenParen) {
        let Some(inner) = balanced(tokens, out, fuel, at + 1)? else {
            return Ok(None);
        };
        return Ok(expect(tokens, out, inner, Mark::CloseParen, mark));
    }
    if is_mark(tokens, at, Mark::OpenBracket) {
        let Some(inner) = balanced(tokens, out, fuel, at + 1)? else {
            return Ok(None);
        };
        return Ok(expect(tokens, out, inner, Mark::CloseBracket, mark));
    }
    if !is_mark(tokens, at, Mark::OpenBrace) {
        return Ok(None);
    }
    let Some(inner) = balanced(tokens, out, fuel, at + 1)? else {
        return Ok(None);
    };
    Ok(expect(tokens, out, inner, Mark::CloseBrace, mark))
}
