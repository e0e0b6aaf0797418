// Runes and texts.
ghost use Rattle.std.specs.Prelude.{◌≡◌, ◌≤◌, ◌<◌, ◌∷◌, length, IfSome};
ghost use Rattle.std.proofs.Math.Utf8.{scalar};
ghost use Rattle.argot_tree.specs.Forms.{has};
ghost use Rattle.argot_tree.specs.Literals.{simple_escapes, is_plain};
ghost use Rattle.argot_lex.specs.Literals.{digit_of, octal_of, pair_of, four_of, eight_of, octal_len, hex_len, escape_len, element_len, begins, closed, rune_front, raw_front, text_front};

use crate::characters::{Class, char_front, rest, run_of};

// The value of a digit of the base.
fn digit(b: u8, base: u32) -> Option<u32>
    requires low { 2 ≤ base }
    requires high { base ≤ 16 }
    ensures value { result ≡ digit_of base b }
    ensures below { IfSome result (λ v. v < base) }
{
    char::from(b).to_digit(base)
}

// What two hexadecimal digits at the front write.
fn pair_of(bytes: &[u8]) -> Option<u32>
    ensures value { result ≡ pair_of bytes.now }
    ensures below { IfSome result (λ v. v < 256) }
{
    let [a, b, ..] = bytes else {
        return None;
    };
    let high = digit(*a, 16)?;
    let low = digit(*b, 16)?;
    Some(high * 16 + low)
}

// What four of them write.
fn four_of(bytes: &[u8]) -> Option<u32>
    ensures value { result ≡ four_of bytes.now }
    ensures below { IfSome result (λ v. v < 65536) }
{
    let [_, _, low @ ..] = bytes else {
        return None;
    };
    let high = pair_of(bytes)?;
    let low = pair_of(low)?;
    Some(high * 256 + low)
}

fn eight_of(bytes: &[u8]) -> Option<u32>
    ensures { result ≡ eight_of bytes.now }
{
    let [_, _, _, _, low @ ..] = bytes else {
        return None;
    };
    let high = four_of(bytes)?;
    let low = four_of(low)?;
    Some(high * 65536 + low)
}

// What three octal digits at the front write.
fn octal_of(bytes: &[u8]) -> Option<u32>
    ensures { result ≡ octal_of bytes.now }
{
    let [a, b, c, ..] = bytes else {
        return None;
    };
    let first = digit(*a, 8)?;
    let second = digit(*b, 8)?;
    let third = digit(*c, 8)?;
    Some(first * 64 + second * 8 + third)
}

fn is_character(code: u32) -> bool
    ensures { result ≡ scalar code }
{
    char::from_u32(code).is_some()
}

fn is_simple(b: u8) -> bool
    ensures { result ≡ has simple_escapes b }
{
    matches!(b, b'a' | b'b' | b'f' | b'n' | b'r' | b't' | b'v' | b'\\')
}

// How long an escape by a number is, of which the backslash has been read; `b` is what stands behind it.
fn hex_len(b: u8, bytes: &[u8], behind: &[u8]) -> Option<usize>
    requires { bytes.now ≡ b ∷ behind.now }
    ensures { result ≡ hex_len b behind.now }
{
    match b {
        b'x' => pair_of(behind).map(|_| 4),
        b'u' => {
            let code = four_of(behind)?;
            if is_character(code) { Some(6) } else { None }
        }
        b'U' => {
            let code = eight_of(behind)?;
            if is_character(code) { Some(10) } else { None }
        }
        _ => {
            let code = octal_of(bytes)?;
            if code <= 255 { Some(4) } else { None }
        }
    }
}

// How long an escape is, of which the backslash has been read.
#[tactic(auto, unfolding(crate::specs::Literals::escape_len))]
fn escape_len(quote: u8, bytes: &[u8]) -> Option<usize>
    ensures { result ≡ escape_len quote bytes.now }
{
    let (first, behind) = bytes.split_first()?;
    let b = *first;
    if is_simple(b) || b == quote {
        return Some(2);
    }
    hex_len(b, bytes, behind)
}

// A character that stands for itself between these quotes.
fn is_plain(quote: u8, c: char) -> bool
    ensures { result ≡ is_plain quote c }
{
    c != '\0' && c != '\n' && c != '\\' && c != char::from(quote)
}

// How long the first character of a literal is, as it is written.
#[tactic(auto, unfolding(crate::specs::Literals::element_len))]
fn element_len(quote: u8, bytes: &[u8]) -> Option<usize>
    ensures { result ≡ element_len quote bytes.now }
{
    let (first, behind) = bytes.split_first()?;
    if *first == b'\\' {
        return escape_len(quote, behind);
    }
    let (c, size) = char_front(bytes)?;
    if is_plain(quote, c) { Some(size) } else { None }
}

// The same, which is some of the bytes.
fn element_step(quote: u8, bytes: &[u8]) -> Option<usize>
    ensures value { result ≡ element_len quote bytes.now }
    ensures within { IfSome result (λ n. (0 < n) × (n ≤ length bytes.now)) }
{
    element_len(quote, bytes)
}

/// The byte stands at the front.
pub fn begins(quote: u8, bytes: &[u8]) -> bool
    ensures { result ≡ begins quote bytes.now }
{
    match bytes {
        [b, ..] => *b == quote,
        [] => false,
    }
}

/// How long the rune is whose opening quote stands at the front.
pub fn rune_front(text: &[u8]) -> Option<usize>
    requires { 0 < length text.now }
    ensures { result ≡ rune_front text.now }
{
    let inner = rest(text, 1);
    let n = element_step(b'\'', inner)?;
    if begins(b'\'', rest(inner, n)) {
        Some(n + 2)
    } else {
        None
    }
}

/// How long the raw text is whose opening quote stands at the front.
pub fn raw_front(text: &[u8]) -> Option<usize>
    requires { 0 < length text.now }
    ensures { result ≡ raw_front text.now }
{
    let inner = rest(text, 1);
    let n = run_of(Class::Raw, inner);
    if begins(b'`', rest(inner, n)) {
        Some(n + 2)
    } else {
        None
    }
}

/// How long the text is whose opening quote stands at the front.
pub fn text_front(text: &[u8]) -> Option<usize>
    requires { 0 < length text.now }
    ensures { result ≡ text_front text.now }
{
    let mut at = 1;
    while at < text.len() {
        if text[at] == b'"' {
            return Some(at + 1);
        }
        let step = element_step(b'"', rest(text, at))?;
        at += step;
    }
    None
}
