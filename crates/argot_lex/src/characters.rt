// Characters at the front of some bytes.
ghost use Rattle.std.specs.Prelude.{◌≡◌, ◌≤◌, ◌<◌, length, drop};
ghost use Rattle.argot_tree.specs.Names.{is_letter, is_letter_or_digit};
ghost use Rattle.argot_lex.specs.Characters.{char_at, passes, step_of, run_from, first_letter};

use ucd_category::GeneralCategory;

/// The characters that go on a piece.
#[derive(Clone, Copy)]
pub enum Class {
    /// Letters and digits.
    Word,
    /// Any up to the end of a line.
    Line,
    /// Any up to a backquote.
    Raw,
}

/// The bytes from an offset on.
#[inline]
pub fn rest(bytes: &[u8], at: usize) -> &[u8]
    requires { at ≤ length bytes.now }
    ensures { result.now ≡ drop at bytes.now }
{
    let (_, back) = bytes.split_at(at);
    back
}

/// The first character and how many bytes it takes; None where the bytes are not UTF-8.
#[inline]
#[tactic(auto, unfolding(crate::specs::Characters::char_at))]
pub fn char_front(bytes: &[u8]) -> Option<(char, usize)>
    ensures { result ≡ char_at bytes.now }
{
    let (found, size) = bstr::decode_utf8(bytes);
    let c = found?;
    Some((c, size))
}

// By the categories Lu, Ll, Lt, Lm and Lo.
fn is_letter(c: char) -> bool
    ensures { result ≡ is_letter c }
{
    if c == '_' {
        return true;
    }
    matches!(
        GeneralCategory::for_char(c),
        GeneralCategory::UppercaseLetter
            | GeneralCategory::LowercaseLetter
            | GeneralCategory::TitlecaseLetter
            | GeneralCategory::ModifierLetter
            | GeneralCategory::OtherLetter
    )
}

// By those and Nd.
fn is_letter_or_digit(c: char) -> bool
    ensures { result ≡ is_letter_or_digit c }
{
    is_letter(c) || matches!(GeneralCategory::for_char(c), GeneralCategory::DecimalNumber)
}

fn passes(class: Class, c: char) -> bool
    ensures { result ≡ passes class c }
{
    match class {
        Class::Word => is_letter_or_digit(c),
        Class::Line => c != '\0' && c != '\n',
        Class::Raw => c != '\0' && c != '`',
    }
}

// The same of a byte below 128, without a look at the tables.
#[inline]
#[tactic(auto, using(crate::proofs::Chars::ascii_word))]
fn passes_ascii(class: Class, b: u8) -> bool
    requires { b < 128 }
    ensures { result ≡ passes class b }
{
    match class {
        Class::Word => b == b'_' || b.is_ascii_alphanumeric(),
        Class::Line => b != 0 && b != b'\n',
        Class::Raw => b != 0 && b != b'`',
    }
}

/// Whether a letter stands at the front.
pub fn first_letter(bytes: &[u8]) -> bool
    ensures { result ≡ first_letter bytes.now }
{
    let [b, ..] = bytes else {
        return false;
    };
    if *b < 128 {
        return *b == b'_' || b.is_ascii_alphabetic();
    }
    match char_front(bytes) {
        Some((c, _)) => is_letter(c),
        None => false,
    }
}

// How many bytes the next character of the class takes, 0 where none stands there.
fn step_of(class: Class, bytes: &[u8]) -> usize
    ensures { result ≡ step_of class bytes.now }
{
    let [b, ..] = bytes else {
        return 0;
    };
    if *b < 128 {
        return if passes_ascii(class, *b) { 1 } else { 0 };
    }
    match char_front(bytes) {
        Some((c, size)) => { if passes(class, c) { size } else { 0 } }
        None => 0,
    }
}

/// How many bytes at the front are characters of the class.
pub fn run_of(class: Class, bytes: &[u8]) -> usize
    ensures value { result ≡ run_from (passes class) 0 bytes.now }
    ensures within { result ≤ length bytes.now }
{
    let mut at = 0;
    while at < bytes.len() {
        let step = step_of(class, rest(bytes, at));
        if step == 0 {
            return at;
        }
        at += step;
    }
    at
}
