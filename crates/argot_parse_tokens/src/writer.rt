// The nodes that are written behind their children.
ghost use Rattle.std.specs.Prelude.{◌≡◌, ◌+◌, take, reverse, IfOk, OnOk, IfSome, IfNone, true, false};
ghost use Rattle.argot_tree.specs.Forests.{last_token};
ghost use Rattle.argot_parse_reader.specs.Reading.{closed, closed_all, put, is_mark, behind_comma};

use crate::peek::{behind_comma, is_mark};
use argot_parse_reader::Post;
use argot_text::Memory;
use argot_tree::{Mark, NodeKind, Token};
use std::alloc::Global;

/// The nodes so far, and the furthest token at which one that is needed was missing.
#[derive(Drop)]
pub struct Writer {
    /// Where memory comes from.
    pub alloc: Global,
    /// The nodes, each behind its children.
    pub posts: Vec<Post>,
    /// The furthest token at which a needed one was missing.
    pub furthest: usize,
}

/// More than a number counts has no room.
pub fn narrow(n: usize) -> Result<u32, Memory>
    ensures { IfOk result (λ x. x ≡ n) }
{
    match u32::try_from(n) {
        Ok(x) => Ok(x),
        Err(_) => Err(Memory),
    }
}

fn last_token(from: usize, to: usize) -> usize
    ensures { result ≡ last_token from to }
{
    if from == to {
        from
    } else {
        to.saturating_sub(1)
    }
}

/// The nodes since a mark become the children of a new one.
pub fn close(
    out: &mut Writer,
    kind: NodeKind,
    from: usize,
    to: usize,
    mark: usize,
) -> Result<(), Memory>
    ensures { OnOk result (out.new.posts.items ≡ closed kind from to mark out.old.posts.items) }
{
    let size = narrow((out.posts.len() + 1).saturating_sub(mark))?;
    let token = narrow(from)?;
    let last = narrow(last_token(from, to))?;
    out.posts.push(Post {
        kind,
        token,
        last,
        size,
    })?;
    Ok(())
}

/// A node over each of these, the last of them the innermost.
pub fn close_all(
    out: &mut Writer,
    kind: NodeKind,
    begun: Vec<(usize, usize)>,
    to: usize,
) -> Result<(), Memory>
    ensures { OnOk result (out.new.posts.items ≡ closed_all kind (reverse begun.items) to out.old.posts.items) }
{
    let mut begun = begun;
    while let Some((from, mark)) = begun.pop() {
        close(out, kind, from, to, mark)?;
    }
    Ok(())
}

/// A node without children.
pub fn put(out: &mut Writer, kind: NodeKind, from: usize, to: usize) -> Result<(), Memory>
    ensures { OnOk result (out.new.posts.items ≡ put kind from to out.old.posts.items) }
{
    let mark = out.posts.len();
    close(out, kind, from, to, mark)
}

/// Gives up what was written since a mark.
pub fn undo(out: &mut Writer, mark: usize)
    ensures { out.new.posts.items ≡ take mark out.old.posts.items }
{
    out.posts.truncate(mark);
}

/// A token that is needed there is missing.
pub fn missing(out: &mut Writer, at: usize)
    ensures { out.new.posts ≡ out.old.posts }
{
    if out.furthest < at {
        out.furthest = at;
    }
}

/// The token behind the mark that must stand there; where it doesn't, what was written since a mark is given up.
pub fn expect(
    tokens: &[Token],
    out: &mut Writer,
    at: usize,
    wanted: Mark,
    mark: usize,
) -> Option<usize>
    ensures some { IfSome result (λ to. (is_mark tokens.now at wanted ≡ true) × (to ≡ at + 1) × (out.new.posts ≡ out.old.posts)) }
    ensures none { IfNone result ((is_mark tokens.now at wanted ≡ false) × (out.new.posts.items ≡ take mark out.old.posts.items)) }
{
    if is_mark(tokens, at, wanted) {
        return Some(at + 1);
    }
    missing(out, at);
    undo(out, mark);
    None
}

/// The same with a comma before it or without.
pub fn expect_list(
    tokens: &[Token],
    out: &mut Writer,
    at: usize,
    wanted: Mark,
    mark: usize,
) -> Option<usize>
    ensures some { IfSome result (λ to. (is_mark tokens.now (behind_comma tokens.now at) wanted ≡ true) × (to ≡ behind_comma tokens.now at + 1) × (out.new.posts ≡ out.old.posts)) }
    ensures none { IfNone result ((is_mark tokens.now (behind_comma tokens.now at) wanted ≡ false) × (out.new.posts.items ≡ take mark out.old.posts.items)) }
{
    expect(tokens, out, behind_comma(tokens, at), wanted, mark)
}

/// What was written stays where it may, and is given up since a mark where it may not.
pub fn keep(out: &mut Writer, may: bool, to: usize, mark: usize) -> Option<usize>
    ensures some { IfSome result (λ r. (may ≡ true) × (r ≡ to) × (out.new.posts ≡ out.old.posts)) }
    ensures none { IfNone result ((may ≡ false) × (out.new.posts.items ≡ take mark out.old.posts.items)) }
{
    if may {
        return Some(to);
    }
    missing(out, to);
    undo(out, mark);
    None
}
