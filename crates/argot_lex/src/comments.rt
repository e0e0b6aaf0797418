// Comments.
ghost use Rattle.std.specs.Prelude.{◌≡◌, ◌≤◌, ◌<◌, length, drop, false, IfSome};
ghost use Rattle.argot_tree.specs.Comments.{is_directive};
ghost use Rattle.argot_lex.specs.Comments.{ends_line, line_front, closes, some_char_at, general_from, general_front};

use crate::characters::{Class, char_front, rest, run_of};
use argot_tree::Piece;

// The line ends here.
fn ends_line(bytes: &[u8]) -> bool
    ensures { result ≡ ends_line bytes.now }
{
    match bytes {
        [b, ..] => *b == b'\n',
        [] => true,
    }
}

// It is a comment for the compiler.
fn is_directive(bytes: &[u8]) -> bool
    ensures { result ≡ is_directive bytes.now }
{
    matches!(bytes, [b'/', b'/', b'g', b'o', b':', ..])
}

/// The line comment that begins at the front, and its length; None where it has bytes that are no characters.
pub fn line_front(text: &[u8]) -> Option<(Piece, usize)>
    requires { 2 ≤ length text.now }
    ensures { result ≡ line_front text.now }
{
    let n = 2 + run_of(Class::Line, rest(text, 2));
    if !ends_line(rest(text, n)) {
        return None;
    }
    if is_directive(&text[..n]) {
        Some((Piece::Directive, n))
    } else {
        Some((Piece::LineComment, n))
    }
}

// A slash behind a star, with which a general comment ends.
fn closes(star: bool, bytes: &[u8]) -> bool
    ensures { result ≡ closes star bytes.now }
{
    match bytes {
        [b, ..] => star && *b == b'/',
        [] => false,
    }
}

// The first character, U+0000 never, and how many bytes it takes.
fn some_char(bytes: &[u8]) -> Option<(char, usize)>
    ensures { result ≡ some_char_at bytes.now }
{
    let (c, size) = char_front(bytes)?;
    if c == '\0' {
        return None;
    }
    Some((c, size))
}

fn char_step(bytes: &[u8]) -> Option<(char, usize)>
    ensures value { result ≡ some_char_at bytes.now }
    ensures within { IfSome result (λ r. (0 < r.1) × (r.1 ≤ length bytes.now)) }
{
    some_char(bytes)
}

// Whether a newline stands in the comment, and its length.
fn general_len(text: &[u8]) -> Option<(bool, usize)>
    requires { 2 ≤ length text.now }
    ensures { result ≡ general_from 0 false false 2 (drop 2 text.now) }
{
    let mut star = false;
    let mut breaks = false;
    let mut at = 2;
    while at < text.len() {
        let behind = rest(text, at);
        if closes(star, behind) {
            return Some((breaks, at + 1));
        }
        let (c, size) = char_step(behind)?;
        star = c == '*';
        breaks |= c == '\n';
        at += size;
    }
    None
}

/// The general comment that begins at the front, and its length; None where it has no end.
pub fn general_front(text: &[u8]) -> Option<(Piece, usize)>
    requires { 2 ≤ length text.now }
    ensures { result ≡ general_front text.now }
{
    let (breaks, n) = general_len(text)?;
    if breaks {
        Some((Piece::LongComment, n))
    } else {
        Some((Piece::Comment, n))
    }
}
