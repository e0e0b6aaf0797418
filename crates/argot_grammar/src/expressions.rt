// Expressions, and expressions or types.
#![tactic(auto, using(argot_parse_reader::proofs::Steps::read_more, argot_parse_reader::proofs::Steps::read_none, argot_parse_reader::proofs::Grows::kept))]

ghost use Rattle.std.specs.Prelude.{◌≡◌, IfOk, Some};
ghost use Rattle.argot_tree.specs.Grammar.{Level, Exprs, Either, Eithers};
ghost use Rattle.argot_parse_reader.specs.Reading.{The, UnaryOr, PrimaryOr, Climb, MoreExprs, Gives};
ghost use Rattle.argot_parse_reader.specs.ExpressionReader.{climbs};
ghost use Rattle.argot_parse_reader.specs.Reader.{read};

use crate::operands::operand;
use crate::suffixes::suffixes;
use argot_parse_tokens::{
    Operators, Writer, close, close_operators, goes_on, is_mark, level_at, operators_at, stays,
    typed, undo,
};
use argot_text::Memory;
use argot_tree::{Mark, NodeKind, Token};

// Whether an operator that binds at this level goes on an expression.
fn climbs(lowest: usize, limit: usize, level: usize) -> bool
    ensures { result ≡ climbs lowest limit level }
{
    1 <= level && (lowest <= level && level <= limit)
}

/// An expression whose outermost operator binds at this level or tighter; braces may stand behind a bare type name where
/// `bare`.
#[cycle(reading)]
pub fn level(
    tokens: &[Token],
    out: &mut Writer,
    fuel: usize,
    lowest: usize,
    bare: bool,
    at: usize,
) -> Result<Option<usize>, Memory>
    ensures { IfOk result (λ r. Gives out.old.posts.items r out.new.posts.items (read tokens.now fuel (The (Level lowest bare)) at out.old.posts.items)) }
{
    if fuel == 0 {
        return Ok(None);
    }
    let mark = out.posts.len();
    let Some(mid) = unary(tokens, out, fuel - 1, false, bare, at)? else {
        return Ok(None);
    };
    let to = climb(tokens, out, fuel - 1, lowest, bare, at, mark, mid)?;
    Ok(Some(to))
}

/// An expression or a type.
#[cycle(reading)]
pub fn either(
    tokens: &[Token],
    out: &mut Writer,
    fuel: usize,
    at: usize,
) -> Result<Option<usize>, Memory>
    ensures { IfOk result (λ r. Gives out.old.posts.items r out.new.posts.items (read tokens.now fuel (The Either) at out.old.posts.items)) }
{
    if fuel == 0 {
        return Ok(None);
    }
    let mark = out.posts.len();
    let Some(mid) = unary(tokens, out, fuel - 1, true, true, at)? else {
        return Ok(None);
    };
    if typed(&out.posts) {
        return Ok(Some(mid));
    }
    let to = climb(tokens, out, fuel - 1, 1, true, at, mark, mid)?;
    Ok(Some(to))
}

// Goes on behind an operand that begins at `from`, with its nodes from `mark` on.
#[cycle(reading)]
fn climb(
    tokens: &[Token],
    out: &mut Writer,
    steps: usize,
    lowest: usize,
    bare: bool,
    from: usize,
    mark: usize,
    behind: usize,
) -> Result<usize, Memory>
    ensures { IfOk result (λ to. read tokens.now steps (Climb lowest 9 bare from mark) behind out.old.posts.items ≡ Some (to, out.new.posts.items)) }
{
    let mut at = behind;
    let mut limit = 9;
    let mut fuel = steps;
    while fuel > 0 {
        fuel -= 1;
        let binds = level_at(tokens, at);
        if !climbs(lowest, limit, binds) {
            return Ok(at);
        }
        let Some(to) = level(tokens, out, fuel, binds + 1, bare, at + 1)? else {
            return Ok(at);
        };
        close(out, NodeKind::Binary, from, to, mark)?;
        at = to;
        limit = binds;
    }
    Ok(at)
}

// An operand with the operators before it, or a type where `types`. They are counted, and put over the operand when it is
// read, so that no call is as deep as they are many.
#[cycle(reading)]
fn unary(
    tokens: &[Token],
    out: &mut Writer,
    fuel: usize,
    types: bool,
    bare: bool,
    at: usize,
) -> Result<Option<usize>, Memory>
    ensures { IfOk result (λ r. Gives out.old.posts.items r out.new.posts.items (read tokens.now fuel (UnaryOr types bare) at out.old.posts.items)) }
{
    let mark = out.posts.len();
    let outer = operators_at(tokens, types, fuel, at);
    let inner = operators_at(tokens, false, fuel - outer, at + outer);
    if outer + inner == fuel {
        return Ok(None);
    }
    let steps = fuel - outer - inner - 1;
    let behind = at + outer + inner;
    let Some(to) = primary(tokens, out, steps, stays(types, inner), bare, behind)? else {
        return Ok(None);
    };
    let plain = Operators {
        types: false,
        first: at + outer,
        count: inner,
        mark,
    };
    let Some(_) = close_operators(tokens, out, plain, to)? else {
        return Ok(None);
    };
    let operators = Operators {
        types,
        first: at,
        count: outer,
        mark,
    };
    let Some(end) = close_operators(tokens, out, operators, to)? else {
        return Ok(None);
    };
    Ok(Some(end))
}

/// An operand with what goes on behind it.
#[cycle(reading)]
pub fn primary(
    tokens: &[Token],
    out: &mut Writer,
    fuel: usize,
    types: bool,
    bare: bool,
    at: usize,
) -> Result<Option<usize>, Memory>
    ensures { IfOk result (λ r. Gives out.old.posts.items r out.new.posts.items (read tokens.now fuel (PrimaryOr types bare) at out.old.posts.items)) }
{
    if fuel == 0 {
        return Ok(None);
    }
    let mark = out.posts.len();
    let Some(mid) = operand(tokens, out, fuel - 1, types, bare, at)? else {
        return Ok(None);
    };
    if types && typed(&out.posts) {
        return Ok(Some(mid));
    }
    let to = suffixes(tokens, out, fuel - 1, at, mark, mid)?;
    Ok(Some(to))
}

/// Expressions with commas between.
#[cycle(reading)]
pub fn expressions(
    tokens: &[Token],
    out: &mut Writer,
    fuel: usize,
    bare: bool,
    at: usize,
) -> Result<Option<usize>, Memory>
    ensures { IfOk result (λ r. Gives out.old.posts.items r out.new.posts.items (read tokens.now fuel (The (Exprs bare)) at out.old.posts.items)) }
{
    if fuel == 0 {
        return Ok(None);
    }
    let Some(mid) = level(tokens, out, fuel - 1, 1, bare, at)? else {
        return Ok(None);
    };
    let to = more_expressions(tokens, out, fuel - 1, bare, mid)?;
    Ok(Some(to))
}

#[cycle(reading)]
fn more_expressions(
    tokens: &[Token],
    out: &mut Writer,
    steps: usize,
    bare: bool,
    behind: usize,
) -> Result<usize, Memory>
    ensures { IfOk result (λ to. read tokens.now steps (MoreExprs bare) behind out.old.posts.items ≡ Some (to, out.new.posts.items)) }
{
    let mut at = behind;
    let mut fuel = steps;
    while fuel > 0 {
        fuel -= 1;
        if !is_mark(tokens, at, Mark::Comma) {
            return Ok(at);
        }
        let Some(to) = level(tokens, out, fuel, 1, bare, at + 1)? else {
            return Ok(at);
        };
        at = to;
    }
    Ok(at)
}

/// Expressions and types with commas between.
#[cycle(reading)]
pub fn eithers(
    tokens: &[Token],
    out: &mut Writer,
    steps: usize,
    first: usize,
) -> Result<Option<usize>, Memory>
    ensures { IfOk result (λ r. Gives out.old.posts.items r out.new.posts.items (read tokens.now steps (The Eithers) first out.old.posts.items)) }
{
    let mark = out.posts.len();
    let mut at = first;
    let mut fuel = steps;
    while fuel > 0 {
        fuel -= 1;
        let Some(to) = either(tokens, out, fuel, at)? else {
            undo(out, mark);
            return Ok(None);
        };
        if !goes_on(tokens, Mark::CloseParen, to) {
            return Ok(Some(to));
        }
        at = to + 1;
    }
    undo(out, mark);
    Ok(None)
}
