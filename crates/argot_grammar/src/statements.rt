// Statements.
#![tactic(auto, using(argot_parse_reader::proofs::Steps::read_more, argot_parse_reader::proofs::Steps::read_none, argot_parse_reader::proofs::Grows::kept))]

ghost use Rattle.std.specs.Prelude.{◌<◌, ◌≤◌, length, IfOk, Some, vec_len};
ghost use Rattle.argot_tree.specs.declared.token.TokenKind.TheVariants as kinds;
ghost use Rattle.argot_tree.specs.Grammar.{Stmt, Simple};
ghost use Rattle.argot_parse_reader.specs.Reading.{The, Gives, Settles};
ghost use Rattle.argot_parse_reader.specs.StatementReader.{stmt_by, decl_stmt_by, keyword_by, jump_by, return_by, goto_by, exprs_node_by, more_by, assigned_by, assign_by, simple_behind_by, define_by};
ghost use Rattle.argot_parse_reader.specs.Reader.{read};

use crate::blocks::{block, labelled, maybe_label};
use crate::declarations::decl;
use crate::expressions::{expressions, level};
use crate::fields::names;
use crate::heads::ifs;
use crate::loops::{for_stmt, select_stmt};
use crate::switches::switch_stmt;
use argot_parse_tokens::{
    Writer, assign_at, close, defines, ends_stmt_at, is_label, is_mark, is_name, kind_at, missing,
    op_assign_at, put, undo, values_behind_names,
};
use argot_text::Memory;
use argot_tree::{Keyword, Mark, NodeKind, Token, TokenKind};

/// A statement, by the token that begins it.
#[cycle(reading)]
pub fn stmt(
    tokens: &[Token],
    out: &mut Writer,
    fuel: usize,
    at: usize,
) -> Result<Option<usize>, Memory>
    ensures { IfOk result (λ r. Gives out.old.posts.items r out.new.posts.items (read tokens.now fuel (The Stmt) at out.old.posts.items)) }
{
    if fuel == 0 {
        return Ok(None);
    }
    match kind_at(tokens, at) {
        Some(TokenKind::Word(word)) => word_stmt(tokens, out, fuel - 1, word, at),
        Some(TokenKind::Mark(Mark::OpenBrace)) => block(tokens, out, fuel - 1, at),
        Some(TokenKind::Name) => name_stmt(tokens, out, fuel - 1, at),
        _ => simple(tokens, out, fuel - 1, true, at),
    }
}

#[cycle(reading)]
fn name_stmt(
    tokens: &[Token],
    out: &mut Writer,
    fuel: usize,
    at: usize,
) -> Result<Option<usize>, Memory>
    ensures { IfOk result (λ r. Gives out.old.posts.items r out.new.posts.items (stmt_by tokens.now (read tokens.now fuel) (Some kinds.Name) at out.old.posts.items)) }
{
    if is_label(tokens, at) {
        return labelled(tokens, out, fuel, at);
    }
    simple(tokens, out, fuel, true, at)
}

#[cycle(reading)]
fn word_stmt(
    tokens: &[Token],
    out: &mut Writer,
    fuel: usize,
    word: Keyword,
    at: usize,
) -> Result<Option<usize>, Memory>
    requires { at < length tokens.now }
    ensures { IfOk result (λ r. Gives out.old.posts.items r out.new.posts.items (stmt_by tokens.now (read tokens.now fuel) (Some (kinds.Word word)) at out.old.posts.items)) }
{
    match word {
        Keyword::Const | Keyword::Var | Keyword::TypeWord => decl_stmt(tokens, out, fuel, at),
        Keyword::Go => keyword_stmt(tokens, out, fuel, NodeKind::Go, at),
        Keyword::Defer => keyword_stmt(tokens, out, fuel, NodeKind::Defer, at),
        Keyword::Return => return_stmt(tokens, out, fuel, at),
        Keyword::Break => jump(tokens, out, fuel, NodeKind::Break, at),
        Keyword::Continue => jump(tokens, out, fuel, NodeKind::Continue, at),
        Keyword::Goto => goto_stmt(tokens, out, at),
        Keyword::Fallthrough => {
            put(out, NodeKind::Fallthrough, at, at + 1)?;
            Ok(Some(at + 1))
        }
        Keyword::If => ifs(tokens, out, fuel, at),
        Keyword::Switch => switch_stmt(tokens, out, fuel, at),
        Keyword::Select => select_stmt(tokens, out, fuel, at),
        Keyword::For => for_stmt(tokens, out, fuel, at),
        _ => simple(tokens, out, fuel, true, at),
    }
}

#[cycle(reading)]
fn decl_stmt(
    tokens: &[Token],
    out: &mut Writer,
    fuel: usize,
    at: usize,
) -> Result<Option<usize>, Memory>
    ensures { IfOk result (λ r. Gives out.old.posts.items r out.new.posts.items (decl_stmt_by tokens.now (read tokens.now fuel) at out.old.posts.items)) }
{
    let mark = out.posts.len();
    let Some(to) = decl(tokens, out, fuel, at)? else {
        return Ok(None);
    };
    close(out, NodeKind::DeclStmt, at, to, mark)?;
    Ok(Some(to))
}

// A keyword and an expression.
#[cycle(reading)]
fn keyword_stmt(
    tokens: &[Token],
    out: &mut Writer,
    fuel: usize,
    kind: NodeKind,
    at: usize,
) -> Result<Option<usize>, Memory>
    requires { at < length tokens.now }
    ensures { IfOk result (λ r. Gives out.old.posts.items r out.new.posts.items (keyword_by tokens.now (read tokens.now fuel) kind at out.old.posts.items)) }
{
    let mark = out.posts.len();
    let Some(to) = level(tokens, out, fuel, 1, true, at + 1)? else {
        return Ok(None);
    };
    close(out, kind, at, to, mark)?;
    Ok(Some(to))
}

// A keyword and maybe a label.
fn jump(
    tokens: &[Token],
    out: &mut Writer,
    fuel: usize,
    kind: NodeKind,
    at: usize,
) -> Result<Option<usize>, Memory>
    requires { at < length tokens.now }
    ensures { IfOk result (λ r. Gives out.old.posts.items r out.new.posts.items (jump_by tokens.now (read tokens.now fuel) kind at out.old.posts.items)) }
{
    let mark = out.posts.len();
    let Some(to) = maybe_label(tokens, out, fuel, at + 1)? else {
        return Ok(None);
    };
    close(out, kind, at, to, mark)?;
    Ok(Some(to))
}

#[cycle(reading)]
fn return_stmt(
    tokens: &[Token],
    out: &mut Writer,
    fuel: usize,
    at: usize,
) -> Result<Option<usize>, Memory>
    requires { at < length tokens.now }
    ensures { IfOk result (λ r. Gives out.old.posts.items r out.new.posts.items (return_by tokens.now (read tokens.now fuel) at out.old.posts.items)) }
{
    if ends_stmt_at(tokens, at + 1) {
        put(out, NodeKind::Return, at, at + 1)?;
        return Ok(Some(at + 1));
    }
    let mark = out.posts.len();
    let Some(to) = expressions(tokens, out, fuel, true, at + 1)? else {
        return Ok(None);
    };
    close(out, NodeKind::Return, at, to, mark)?;
    Ok(Some(to))
}

fn goto_stmt(tokens: &[Token], out: &mut Writer, at: usize) -> Result<Option<usize>, Memory>
    requires { at < length tokens.now }
    ensures { IfOk result (λ r. Gives out.old.posts.items r out.new.posts.items (goto_by tokens.now at out.old.posts.items)) }
{
    if !is_name(tokens, at + 1) {
        missing(out, at + 1);
        return Ok(None);
    }
    let mark = out.posts.len();
    put(out, NodeKind::LabelUse, at + 1, at + 2)?;
    close(out, NodeKind::Goto, at, at + 2, mark)?;
    Ok(Some(at + 2))
}

// Expressions under a node of their own.
#[cycle(reading)]
fn expressions_node(
    tokens: &[Token],
    out: &mut Writer,
    fuel: usize,
    bare: bool,
    at: usize,
) -> Result<Option<usize>, Memory>
    ensures { IfOk result (λ r. Gives out.old.posts.items r out.new.posts.items (exprs_node_by tokens.now (read tokens.now fuel) bare at out.old.posts.items)) }
{
    let mark = out.posts.len();
    let Some(to) = expressions(tokens, out, fuel, bare, at)? else {
        return Ok(None);
    };
    close(out, NodeKind::Exprs, at, to, mark)?;
    Ok(Some(to))
}

/// More expressions behind the first, where a comma stands there.
#[cycle(reading)]
pub fn more_expressions_behind(
    tokens: &[Token],
    out: &mut Writer,
    fuel: usize,
    bare: bool,
    mark: usize,
    at: usize,
) -> Result<Option<usize>, Memory>
    requires { mark ≤ vec_len out.old.posts }
    ensures { IfOk result (λ r. Settles mark out.old.posts.items r out.new.posts.items (more_by tokens.now (read tokens.now fuel) bare (at, out.old.posts.items))) }
{
    if !is_mark(tokens, at, Mark::Comma) {
        return Ok(Some(at));
    }
    let Some(to) = expressions(tokens, out, fuel, bare, at + 1)? else {
        undo(out, mark);
        return Ok(None);
    };
    Ok(Some(to))
}

#[cycle(reading)]
fn assigned(
    tokens: &[Token],
    out: &mut Writer,
    fuel: usize,
    kind: NodeKind,
    bare: bool,
    from: usize,
    mark: usize,
    at: usize,
) -> Result<Option<usize>, Memory>
    requires within { at < length tokens.now }
    requires marked { mark ≤ vec_len out.old.posts }
    ensures { IfOk result (λ r. Settles mark out.old.posts.items r out.new.posts.items (assigned_by tokens.now (read tokens.now fuel) kind bare from mark (at, out.old.posts.items))) }
{
    close(out, NodeKind::Exprs, from, at, mark)?;
    let Some(to) = expressions_node(tokens, out, fuel, bare, at + 1)? else {
        undo(out, mark);
        return Ok(None);
    };
    close(out, kind, from, to, mark)?;
    Ok(Some(to))
}

/// An assignment whose left sides are read.
#[cycle(reading)]
pub fn assign(
    tokens: &[Token],
    out: &mut Writer,
    fuel: usize,
    bare: bool,
    from: usize,
    mark: usize,
    at: usize,
) -> Result<Option<usize>, Memory>
    requires { mark ≤ vec_len out.old.posts }
    ensures { IfOk result (λ r. Settles mark out.old.posts.items r out.new.posts.items (assign_by tokens.now (read tokens.now fuel) bare from mark (at, out.old.posts.items))) }
{
    if is_mark(tokens, at, Mark::Assign) {
        return assigned(tokens, out, fuel, NodeKind::Assign, bare, from, mark, at);
    }
    if op_assign_at(tokens, at) {
        return assigned(tokens, out, fuel, NodeKind::OpAssign, bare, from, mark, at);
    }
    missing(out, at);
    undo(out, mark);
    Ok(None)
}

/// A simple statement whose first expression is read.
#[cycle(reading)]
pub fn simple_behind(
    tokens: &[Token],
    out: &mut Writer,
    fuel: usize,
    bare: bool,
    from: usize,
    mark: usize,
    at: usize,
) -> Result<Option<usize>, Memory>
    requires { mark ≤ vec_len out.old.posts }
    ensures { IfOk result (λ r. Settles mark out.old.posts.items r out.new.posts.items (simple_behind_by tokens.now (read tokens.now fuel) bare from mark (at, out.old.posts.items))) }
{
    if is_mark(tokens, at, Mark::Arrow) {
        let Some(to) = level(tokens, out, fuel, 1, bare, at + 1)? else {
            undo(out, mark);
            return Ok(None);
        };
        close(out, NodeKind::Send, from, to, mark)?;
        return Ok(Some(to));
    }
    if is_mark(tokens, at, Mark::Increment) {
        close(out, NodeKind::Increment, from, at + 1, mark)?;
        return Ok(Some(at + 1));
    }
    if is_mark(tokens, at, Mark::Decrement) {
        close(out, NodeKind::Decrement, from, at + 1, mark)?;
        return Ok(Some(at + 1));
    }
    if !assign_at(tokens, at) {
        close(out, NodeKind::ExprStmt, from, at, mark)?;
        return Ok(Some(at));
    }
    let Some(mid) = more_expressions_behind(tokens, out, fuel, bare, mark, at)? else {
        return Ok(None);
    };
    assign(tokens, out, fuel, bare, from, mark, mid)
}

/// A simple statement.
#[cycle(reading)]
pub fn simple(
    tokens: &[Token],
    out: &mut Writer,
    fuel: usize,
    bare: bool,
    at: usize,
) -> Result<Option<usize>, Memory>
    ensures { IfOk result (λ r. Gives out.old.posts.items r out.new.posts.items (read tokens.now fuel (The (Simple bare)) at out.old.posts.items)) }
{
    if fuel == 0 {
        return Ok(None);
    }
    if defines(tokens, at) {
        return define(tokens, out, fuel - 1, bare, at);
    }
    values_behind_names(tokens, out, at);
    let mark = out.posts.len();
    let Some(mid) = level(tokens, out, fuel - 1, 1, bare, at)? else {
        return Ok(None);
    };
    simple_behind(tokens, out, fuel - 1, bare, at, mark, mid)
}

#[cycle(reading)]
fn define(
    tokens: &[Token],
    out: &mut Writer,
    fuel: usize,
    bare: bool,
    at: usize,
) -> Result<Option<usize>, Memory>
    ensures { IfOk result (λ r. Gives out.old.posts.items r out.new.posts.items (define_by tokens.now (read tokens.now fuel) bare at out.old.posts.items)) }
{
    let mark = out.posts.len();
    let Some(mid) = names(tokens, out, fuel, at)? else {
        return Ok(None);
    };
    close(out, NodeKind::Names, at, mid, mark)?;
    if !is_mark(tokens, mid, Mark::Define) {
        missing(out, mid);
        undo(out, mark);
        return Ok(None);
    }
    let Some(to) = expressions_node(tokens, out, fuel, bare, mid + 1)? else {
        undo(out, mark);
        return Ok(None);
    };
    close(out, NodeKind::Define, at, to, mark)?;
    Ok(Some(to))
}
