// Tokens that are needed behind others: a fault is told at the furthest of them that is missing.
ghost use Rattle.std.specs.Prelude.{◌≡◌};

use crate::last::is_primary;
use crate::peek::{behind_names, is_mark, is_name, is_word};
use crate::writer::{Writer, missing};
use argot_tree::{Keyword, Mark, Token};

/// Behind a comma there a name is needed.
pub fn name_behind_comma(tokens: &[Token], out: &mut Writer, at: usize)
    ensures { out.new.posts ≡ out.old.posts }
{
    if is_mark(tokens, at, Mark::Comma) {
        missing(out, at + 1);
    }
}

/// Behind the names with commas between there a type is needed.
pub fn type_behind_names(tokens: &[Token], out: &mut Writer, at: usize)
    ensures { out.new.posts ≡ out.old.posts }
{
    if is_name(tokens, at) {
        let behind = behind_names(tokens, at);
        if at + 1 < behind {
            missing(out, behind);
        }
        name_behind_comma(tokens, out, behind);
    }
}

/// Behind the names and `:=` there values are needed.
pub fn values_behind_names(tokens: &[Token], out: &mut Writer, at: usize)
    ensures { out.new.posts ≡ out.old.posts }
{
    if is_name(tokens, at) {
        let behind = behind_names(tokens, at);
        if is_mark(tokens, behind, Mark::Define) {
            missing(out, behind + 1);
        }
    }
}

/// Behind a point there a name is needed.
pub fn name_behind_dot(tokens: &[Token], out: &mut Writer, at: usize)
    ensures { out.new.posts ≡ out.old.posts }
{
    if is_mark(tokens, at, Mark::Dot) {
        missing(out, at + 1);
    }
}

/// Behind `[...` there a bracket is needed.
pub fn bracket_behind_dots(tokens: &[Token], out: &mut Writer, at: usize)
    ensures { out.new.posts ≡ out.old.posts }
{
    if is_mark(tokens, at, Mark::OpenBracket) && is_mark(tokens, at + 1, Mark::Ellipsis) {
        missing(out, at + 2);
    }
}

/// Behind `:=` in the head of a `for`, and behind no names, `range` is needed.
pub fn range_behind_define(tokens: &[Token], out: &mut Writer, from: usize, at: usize)
    ensures { out.new.posts ≡ out.old.posts }
{
    if 0 < from && is_word(tokens, from - 1, Keyword::For) && is_mark(tokens, at, Mark::Define) {
        missing(out, at + 1);
    }
}

/// Behind `.(type` where a guard may stand a parenthesis is needed.
pub fn paren_behind_guard(tokens: &[Token], out: &mut Writer, at: usize)
    ensures { out.new.posts ≡ out.old.posts }
{
    if is_primary(&out.posts)
        && is_mark(tokens, at, Mark::Dot)
        && is_mark(tokens, at + 1, Mark::OpenParen)
        && is_word(tokens, at + 2, Keyword::TypeWord)
    {
        missing(out, at + 3);
    }
}

/// The same in a head, which may be that of a `switch`.
pub fn paren_behind_first_guard(tokens: &[Token], out: &mut Writer, from: usize, at: usize)
    ensures { out.new.posts ≡ out.old.posts }
{
    if 0 < from && is_word(tokens, from - 1, Keyword::Switch) {
        paren_behind_guard(tokens, out, at);
    }
}
