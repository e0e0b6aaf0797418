// Receivers of methods.
#![tactic(auto, using(argot_parse_reader::proofs::Steps::read_more, argot_parse_reader::proofs::Steps::read_none, argot_parse_reader::proofs::Grows::kept))]

ghost use Rattle.std.specs.Prelude.{◌≡◌, ◌<◌, ◌≤◌, ◌+◌, ◌-◌, length, IfOk, OnOk, IfSome, IfNone, Option, Some, None, vec_len, take, Bool, true, false};
ghost use Rattle.argot_tree.specs.Grammar.{MaybeReceiver, Receiver};
ghost use Rattle.argot_parse_reader.specs.Reading.{The, Gives, closed, put};
ghost use Rattle.argot_parse_reader.specs.FileReader.{named_receiver_by, bare_receiver_by};
ghost use Rattle.argot_parse_reader.specs.Reader.{read};

use argot_grammar::any_type;
use argot_parse_tokens::{
    Writer, close, expect_list, is_mark, is_name, missing, put, type_at, undo,
};
use argot_text::Memory;
use argot_tree::{Mark, NodeKind, Token};

/// A receiver, where one stands there.
pub fn maybe_receiver(
    tokens: &[Token],
    out: &mut Writer,
    fuel: usize,
    at: usize,
) -> Result<Option<usize>, Memory>
    ensures { IfOk result (λ r. Gives out.old.posts.items r out.new.posts.items (read tokens.now fuel (The MaybeReceiver) at out.old.posts.items)) }
{
    if fuel == 0 {
        return Ok(None);
    }
    if !is_mark(tokens, at, Mark::OpenParen) {
        return Ok(Some(at));
    }
    receiver(tokens, out, fuel - 1, at)
}

// A receiver has a name where a type begins behind its first token.
fn receiver(
    tokens: &[Token],
    out: &mut Writer,
    fuel: usize,
    at: usize,
) -> Result<Option<usize>, Memory>
    ensures { IfOk result (λ r. Gives out.old.posts.items r out.new.posts.items (read tokens.now fuel (The Receiver) at out.old.posts.items)) }
{
    if fuel == 0 {
        return Ok(None);
    }
    if !is_mark(tokens, at, Mark::OpenParen) {
        return Ok(None);
    }
    if is_name(tokens, at + 1) && type_at(tokens, at + 2) {
        return named_receiver(tokens, out, fuel - 1, at);
    }
    bare_receiver(tokens, out, fuel - 1, at)
}

fn named_receiver(
    tokens: &[Token],
    out: &mut Writer,
    fuel: usize,
    at: usize,
) -> Result<Option<usize>, Memory>
    requires { at + 2 < length tokens.now }
    ensures { IfOk result (λ r. Gives out.old.posts.items r out.new.posts.items (named_receiver_by tokens.now (read tokens.now fuel) at out.old.posts.items)) }
{
    let mark = out.posts.len();
    put(out, NodeKind::DeclName, at + 1, at + 2)?;
    let Some(mid) = any_type(tokens, out, fuel, at + 2)? else {
        undo(out, mark);
        return Ok(None);
    };
    close(out, NodeKind::NamedParam, at + 1, mid, mark)?;
    let Some(to) = expect_list(tokens, out, mid, Mark::CloseParen, mark) else {
        return Ok(None);
    };
    close(out, NodeKind::NamedParams, at, to, mark)?;
    Ok(Some(to))
}

fn bare_receiver(
    tokens: &[Token],
    out: &mut Writer,
    fuel: usize,
    at: usize,
) -> Result<Option<usize>, Memory>
    requires { at < length tokens.now }
    ensures { IfOk result (λ r. Gives out.old.posts.items r out.new.posts.items (bare_receiver_by tokens.now (read tokens.now fuel) at out.old.posts.items)) }
{
    let mark = out.posts.len();
    let Some(mid) = any_type(tokens, out, fuel, at + 1)? else {
        return Ok(None);
    };
    close(out, NodeKind::Param, at + 1, mid, mark)?;
    let Some(to) = expect_list(tokens, out, mid, Mark::CloseParen, mark) else {
        return Ok(None);
    };
    close(out, NodeKind::Params, at, to, mark)?;
    Ok(Some(to))
}
