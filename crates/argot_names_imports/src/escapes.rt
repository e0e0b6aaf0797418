// What an element of a text in double quotes stands for.
ghost use Rattle.std.specs.Prelude.{◌≡◌, ◌<◌, ◌≤◌, ◌∷◌, ◌++◌, nat_le, encode_utf8, drop, length, IfSome, OnOk};
ghost use Rattle.std.proofs.Math.Utf8.{scalar};
ghost use Rattle.argot_names_imports.specs.Elements.{digit_of, octal_of, pair_of, four_of, eight_of, simple_of, by_number, alone, numbered_of, escape_of, element_of};
ghost use Rattle.argot_names_imports.specs.Standing.{bytes_of, read_of};

use argot_text::Memory;

/// What an element stands for: a byte, or a character by its bytes.
#[derive(Clone, Copy, PartialEq, Eq)]
pub enum Stands {
    Byte(u8),
    Character(char),
}

// The value of a digit of the base.
fn digit(b: u8, base: u32) -> Option<u32>
    requires low { 2 ≤ base }
    requires high { base ≤ 16 }
    ensures value { result ≡ digit_of base b }
    ensures below { IfSome result (λ v. v < base) }
{
    char::from(b).to_digit(base)
}

// What two hexadecimal digits at the front write.
fn pair_of(bytes: &[u8]) -> Option<u32>
    ensures value { result ≡ pair_of bytes.now }
    ensures below { IfSome result (λ v. v < 256) }
{
    let [a, b, ..] = bytes else {
        return None;
    };
    let high = digit(*a, 16)?;
    let low = digit(*b, 16)?;
    Some(high * 16 + low)
}

// What four of them write.
fn four_of(bytes: &[u8]) -> Option<u32>
    ensures value { result ≡ four_of bytes.now }
    ensures below { IfSome result (λ v. v < 65536) }
{
    let [_, _, low @ ..] = bytes else {
        return None;
    };
    let high = pair_of(bytes)?;
    let low = pair_of(low)?;
    Some(high * 256 + low)
}

fn eight_of(bytes: &[u8]) -> Option<u32>
    ensures { result ≡ eight_of bytes.now }
{
    let [_, _, _, _, low @ ..] = bytes else {
        return None;
    };
    let high = four_of(bytes)?;
    let low = four_of(low)?;
    Some(high * 65536 + low)
}

// What three octal digits at the front write.
fn octal_of(bytes: &[u8]) -> Option<u32>
    ensures { result ≡ octal_of bytes.now }
{
    let [a, b, c, ..] = bytes else {
        return None;
    };
    let first = digit(*a, 8)?;
    let second = digit(*b, 8)?;
    let third = digit(*c, 8)?;
    Some(first * 64 + second * 8 + third)
}

// The byte that a letter behind a backslash stands for.
#[tactic(auto, unfolding(crate::specs::Elements::simple_of))]
fn simple_of(b: u8) -> Option<u8>
    ensures { result ≡ simple_of b }
{
    match b {
        b'a' => Some(7),
        b'b' => Some(8),
        b'f' => Some(12),
        b'n' => Some(10),
        b'r' => Some(13),
        b't' => Some(9),
        b'v' => Some(11),
        b'\\' => Some(92),
        b'"' => Some(34),
        _ => None,
    }
}

// A byte by its number, written by four bytes.
fn byte_of(number: Option<u32>) -> Option<(usize, Stands)>
    ensures { read_of result ≡ by_number (λ v. nat_le v 255) 4 alone number }
{
    let v = number?;
    if v <= 255 {
        Some((4, Stands::Byte(v as u8)))
    } else {
        None
    }
}

// A character by its number.
fn character_of(size: usize, number: Option<u32>) -> Option<(usize, Stands)>
    ensures { read_of result ≡ by_number scalar size encode_utf8 number }
{
    let v = number?;
    match char::from_u32(v) {
        Some(c) => Some((size, Stands::Character(c))),
        None => None,
    }
}

// An escape by a number, of which the backslash has been read; `b` is what stands behind it.
fn numbered_of(b: u8, bytes: &[u8], behind: &[u8]) -> Option<(usize, Stands)>
    requires { bytes.now ≡ b ∷ behind.now }
    ensures { read_of result ≡ numbered_of b behind.now }
{
    match b {
        b'x' => byte_of(pair_of(behind)),
        b'u' => character_of(6, four_of(behind)),
        b'U' => character_of(10, eight_of(behind)),
        _ => byte_of(octal_of(bytes)),
    }
}

// An escape, of which the backslash has been read.
#[tactic(auto, unfolding(crate::specs::Elements::escape_of))]
fn escape_of(bytes: &[u8]) -> Option<(usize, Stands)>
    ensures { read_of result ≡ escape_of bytes.now }
{
    let (first, behind) = bytes.split_first()?;
    let b = *first;
    if let Some(v) = simple_of(b) {
        return Some((2, Stands::Byte(v)));
    }
    numbered_of(b, bytes, behind)
}

// The element at the front of what stands between double quotes: how long it is, and what it stands for.
#[tactic(auto, unfolding(crate::specs::Elements::element_of))]
fn element_of(bytes: &[u8]) -> Option<(usize, Stands)>
    ensures { read_of result ≡ element_of bytes.now }
{
    let (first, behind) = bytes.split_first()?;
    let b = *first;
    if b == b'\\' {
        return escape_of(behind);
    }
    Some((1, Stands::Byte(b)))
}

/// The element at the front of what stands between double quotes: how long it is, and what it stands for. No memory.
#[tactic(auto, using(crate::proofs::Values::some_read))]
pub fn element_step(bytes: &[u8]) -> Option<(usize, Stands)>
    ensures value { read_of result ≡ element_of bytes.now }
    ensures within { IfSome result (λ r. (0 < r.0) × (r.0 ≤ length bytes.now)) }
{
    element_of(bytes)
}

/// What is left of the text from an offset on. No memory.
pub fn rest(text: &[u8], at: usize) -> &[u8]
    requires { at ≤ length text.now }
    ensures { result.now ≡ drop at text.now }
{
    text.split_at(at).1
}

/// Puts the bytes that it stands for last. After `Memory` the bytes may be any.
pub fn push_stands(out: &mut Vec<u8>, stands: Stands) -> Result<(), Memory>
    ensures { OnOk result (out.new.items ≡ out.old.items ++ bytes_of stands) }
{
    match stands {
        Stands::Byte(b) => out.push(b)?,
        Stands::Character(c) => {
            let mut room = [0u8; 4];
            let text = c.encode_utf8(&mut room);
            out.extend_from_slice(text.as_bytes())?;
        }
    }
    Ok(())
}
