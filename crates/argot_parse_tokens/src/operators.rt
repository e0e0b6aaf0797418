// Operators before an operand.
#![tactic(auto, using(crate::proofs::OperatorLaws::operators_more, crate::proofs::OperatorLaws::operators_end, crate::proofs::OperatorLaws::operators_over, crate::proofs::OperatorLaws::held))]

ghost use Rattle.std.specs.Prelude.{◌≡◌, ◌≤◌, ◌<◌, ◌+◌, length, take, vec_len, IfOk, IfSome, IsTrue, Some, false};
ghost use Rattle.argot_parse_reader.specs.Reading.{Settles};
ghost use Rattle.argot_parse_tokens.specs.Operators.{operates, operators, stays, Keeps, operated, all_operated};

use crate::arrows::recast;
use crate::last::typed;
use crate::peek::{is_mark, unary_at};
use crate::writer::{Writer, close};
use argot_text::Memory;
use argot_tree::{Mark, NodeKind, Token};

/// Operators in a row before something that is read.
#[derive(Clone, Copy, Debug)]
pub struct Operators {
    /// Whether a type may follow them.
    pub types: bool,
    /// The first of them.
    pub first: usize,
    /// How many there are.
    pub count: usize,
    /// How many nodes stood before those of what was read.
    pub mark: usize,
}

/// Whether an operator stands there, and where `types` a star or an arrow.
pub fn operates(tokens: &[Token], types: bool, at: usize) -> bool
    ensures value { result ≡ operates tokens.now types at }
    ensures within { IsTrue result → at < length tokens.now }
{
    is_mark(tokens, at, Mark::Star)
        || is_mark(tokens, at, Mark::Arrow)
        || !types && unary_at(tokens, at).is_some()
}

/// How many of them stand in a row from a token on, so many at most.
pub fn operators_at(tokens: &[Token], types: bool, limit: usize, at: usize) -> usize
    ensures value { result ≡ operators tokens.now types limit at }
    ensures most { result ≤ limit }
    ensures within { 0 < result → at + result ≤ length tokens.now }
    ensures stops { result < limit → operates tokens.now types (at + result) ≡ false }
{
    let mut count = 0;
    while count < limit && operates(tokens, types, at + count) {
        count += 1;
    }
    count
}

/// Whether a type may still follow where so many operators stand that none follows.
pub fn stays(types: bool, count: usize) -> bool
    ensures { result ≡ stays types count }
{
    types && count == 0
}

// One of them is put over what was read behind it.
fn close_operator(
    tokens: &[Token],
    out: &mut Writer,
    operators: Operators,
    at: usize,
    to: usize,
) -> Result<Option<usize>, Memory>
    requires { operators.mark ≤ vec_len out.old.posts }
    ensures kept { IfOk result (λ r. IfSome r (λ end. (end ≡ to) × Keeps operators.mark out.old.posts.items out.new.posts.items)) }
    ensures value { IfOk result (λ r. Settles operators.mark out.old.posts.items r out.new.posts.items (operated tokens.now operators.types (take operators.mark out.old.posts.items) at (to, out.old.posts.items))) }
{
    let mark = operators.mark;
    let typed = operators.types && typed(&out.posts);
    if is_mark(tokens, at, Mark::Star) {
        let kind = if typed {
            NodeKind::PointerType
        } else {
            NodeKind::Deref
        };
        close(out, kind, at, to, mark)?;
        return Ok(Some(to));
    }
    if is_mark(tokens, at, Mark::Arrow) {
        if typed {
            return recast(out, to, mark);
        }
        close(out, NodeKind::Receive, at, to, mark)?;
        return Ok(Some(to));
    }
    if let Some(kind) = unary_at(tokens, at) {
        close(out, kind, at, to, mark)?;
    }
    Ok(Some(to))
}

/// Each of them is put over what was read behind it, the last of them first.
pub fn close_operators(
    tokens: &[Token],
    out: &mut Writer,
    operators: Operators,
    to: usize,
) -> Result<Option<usize>, Memory>
    requires mark { operators.mark ≤ vec_len out.old.posts }
    requires within { 0 < operators.count → operators.first + operators.count ≤ length tokens.now }
    ensures kept { IfOk result (λ r. IfSome r (λ end. (end ≡ to) × Keeps operators.mark out.old.posts.items out.new.posts.items)) }
    ensures value { IfOk result (λ r. Settles operators.mark out.old.posts.items r out.new.posts.items (all_operated tokens.now operators.types (take operators.mark out.old.posts.items) operators.first operators.count (Some (to, out.old.posts.items)))) }
{
    let mut count = operators.count;
    while count > 0 {
        count -= 1;
        let Some(_) = close_operator(tokens, out, operators, operators.first + count, to)? else {
            return Ok(None);
        };
    }
    Ok(Some(to))
}
