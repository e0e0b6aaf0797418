// The piece at the front of a text.
ghost use Rattle.std.specs.Prelude.{◌≡◌, ◌<◌, ◌≤◌, ◌∷◌, length, drop, Some, IfSome, IfNone};
ghost use Rattle.argot_tree.specs.Pieces.{is_blank, IsLongest, BeginsNone};
ghost use Rattle.argot_lex.specs.Numbers.{number_front};
ghost use Rattle.argot_lex.specs.Marks.{mark_front};
ghost use Rattle.argot_lex.specs.Front.{dot_by, mark_of, slash_front, quoted_front, other_front, front};

use crate::characters::{first_letter, rest};
use crate::comments::{general_front, line_front};
use crate::literals::{begins, raw_front, rune_front, text_front};
use crate::marks::mark_front;
use crate::names::name_front;
use crate::numbers::number_front;
use argot_tree::{Mark, Piece, TokenKind};

fn is_blank(b: u8) -> bool
    ensures { result ≡ is_blank b }
{
    matches!(b, b' ' | b'\t' | b'\r')
}

// A number, or `...`, or a point.
fn dot_front(text: &[u8]) -> (Piece, usize)
    ensures { Some result ≡ dot_by (number_front text.now) text.now }
{
    if let Some((kind, n)) = number_front(text) {
        return (Piece::Token(kind), n);
    }
    match text {
        [b'.', b'.', b'.', ..] => (Piece::Token(TokenKind::Mark(Mark::Ellipsis)), 3),
        _ => (Piece::Token(TokenKind::Mark(Mark::Dot)), 1),
    }
}

// A mark.
fn mark_piece(text: &[u8]) -> Option<(Piece, usize)>
    ensures { result ≡ mark_of (mark_front text.now) }
{
    let (mark, n) = mark_front(text)?;
    Some((Piece::Token(TokenKind::Mark(mark)), n))
}

// A comment or a mark.
fn slash_front(text: &[u8]) -> Option<(Piece, usize)>
    requires { 0 < length text.now }
    ensures { result ≡ slash_front text.now }
{
    let behind = rest(text, 1);
    if begins(b'/', behind) {
        return line_front(text);
    }
    if begins(b'*', behind) {
        return general_front(text);
    }
    mark_piece(text)
}

// A literal between quotes, a comment or a mark.
fn quoted_front(b: u8, text: &[u8]) -> Option<(Piece, usize)>
    requires { 0 < length text.now }
    ensures { result ≡ quoted_front b text.now }
{
    match b {
        b'"' => {
            let n = text_front(text)?;
            Some((Piece::Token(TokenKind::Chars), n))
        }
        b'\'' => {
            let n = rune_front(text)?;
            Some((Piece::Token(TokenKind::Rune), n))
        }
        b'`' => {
            let n = raw_front(text)?;
            Some((Piece::Token(TokenKind::RawChars), n))
        }
        b'/' => slash_front(text),
        _ => mark_piece(text),
    }
}

// A piece that is no name.
fn other_front(b: u8, text: &[u8]) -> Option<(Piece, usize)>
    requires { 0 < length text.now }
    ensures { result ≡ other_front b text.now }
{
    if is_blank(b) {
        return Some((Piece::Space, 1));
    }
    if b == b'\n' {
        return Some((Piece::Newline, 1));
    }
    if b.is_ascii_digit() {
        let (kind, n) = number_front(text)?;
        return Some((Piece::Token(kind), n));
    }
    if b == b'.' {
        return Some(dot_front(text));
    }
    quoted_front(b, text)
}

// The piece at the front, and its length.
#[tactic(auto, unfolding(crate::specs::Front::front))]
fn piece_at(text: &[u8]) -> Option<(Piece, usize)>
    ensures { result ≡ front text.now }
{
    let [b, ..] = text else {
        return None;
    };
    if first_letter(text) {
        let (kind, n) = name_front(text);
        return Some((Piece::Token(kind), n));
    }
    other_front(*b, text)
}

/// The longest piece at an offset, and its length.
pub fn piece_from(bytes: &[u8], at: usize) -> Option<(Piece, usize)>
    requires { at ≤ length bytes.now }
    ensures longest { IfSome result (λ r. (0 < r.1) × IsLongest r.0 r.1 (drop at bytes.now)) }
    ensures none { IfNone result (BeginsNone (drop at bytes.now)) }
{
    piece_at(rest(bytes, at))
}
