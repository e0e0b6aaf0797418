// Lines of tokens.
ghost use Rattle.std.specs.Prelude.{◌≡◌, ◌<◌, ◌+◌, ◌^◌, ◌++◌, [], length, IfOk, OnOk, true};
ghost use Rattle.std.specs.Fmt.{decimal};
ghost use Rattle.argot_show.specs.Lines.{kind_name, part_of, token_text, line_onto, lines_onto, numbers_onto, directives_line};

use argot_text::Memory;
use argot_tree::{Token, TokenKind};
use std::alloc::Global;

/// Adds the bytes.
pub fn put(text: &mut Vec<u8>, more: &[u8]) -> Result<(), Memory>
    ensures { OnOk result (text.new.items ≡ text.old.items ++ more.now) }
{
    text.extend_from_slice(more)?;
    Ok(())
}

/// Adds the number in decimal.
pub fn put_number(text: &mut Vec<u8>, n: u64) -> Result<(), Memory>
    ensures { OnOk result (text.new.items ≡ text.old.items ++ decimal n) }
{
    let mut buffer = itoa::Buffer::new();
    put(text, buffer.format(n).as_bytes())
}

fn kind_name(kind: TokenKind) -> &'static str
    ensures { result.now ≡ kind_name kind }
{
    match kind {
        TokenKind::Name => "Name",
        TokenKind::Whole => "Whole",
        TokenKind::Float => "Float",
        TokenKind::Imaginary => "Imaginary",
        TokenKind::Rune => "Rune",
        TokenKind::Chars => "Chars",
        TokenKind::RawChars => "RawChars",
        TokenKind::Word(_) => "Word",
        TokenKind::Mark(_) => "Mark",
        TokenKind::Inserted => "Inserted",
    }
}

// So many bytes from an offset on, as far as there are.
fn part_of(bytes: &[u8], start: usize, count: usize) -> &[u8]
    ensures { result.now ≡ part_of bytes.now start count }
{
    let (_, behind) = bytes.split_at(start.min(bytes.len()));
    let (part, _) = behind.split_at(count.min(behind.len()));
    part
}

fn token_text<'a>(bytes: &'a [u8], token: Token) -> &'a [u8]
    ensures { result.now ≡ token_text bytes.now token }
{
    match token.kind {
        TokenKind::Inserted => b";",
        _ => part_of(
            bytes,
            token.start as usize,
            token.end.saturating_sub(token.start) as usize,
        ),
    }
}

// The line of one token. After `Memory` a part of it may stand there.
fn put_line(text: &mut Vec<u8>, bytes: &[u8], n: u64, token: Token) -> Result<(), Memory>
    ensures { OnOk result (text.new.items ≡ line_onto text.old.items bytes.now n token) }
{
    put(text, b"  ")?;
    put_number(text, n)?;
    put(text, b" ")?;
    put(text, kind_name(token.kind).as_bytes())?;
    put(text, b" ")?;
    put_number(text, token.start as u64)?;
    put(text, b" ")?;
    put_number(text, token.end as u64)?;
    put(text, b" ")?;
    put(text, token_text(bytes, token))?;
    put(text, b"\n")
}

/// The lines of some tokens, the first of which has the number `first`.
pub fn lines_of(
    alloc: Global,
    bytes: &[u8],
    first: u64,
    tokens: &[Token],
) -> Result<Vec<u8>, Memory>
    requires { first + length tokens.now < 2 ^ 64 }
    ensures { IfOk result (λ text. text.items ≡ lines_onto [] bytes.now first tokens.now) }
{
    let mut text = Vec::new(alloc);
    let mut n = first;
    for token in tokens {
        put_line(&mut text, bytes, n, *token)?;
        n += 1;
    }
    Ok(text)
}

fn put_numbers(text: &mut Vec<u8>, numbers: &[u32]) -> Result<(), Memory>
    ensures { OnOk result (text.new.items ≡ numbers_onto text.old.items true numbers.now) }
{
    let mut first = true;
    for n in numbers {
        if !first {
            put(text, b", ")?;
        }
        put_number(text, *n as u64)?;
        first = false;
    }
    Ok(())
}

/// The line of the directives.
pub fn directives_line(alloc: Global, offsets: &[u32]) -> Result<Vec<u8>, Memory>
    ensures { IfOk result (λ text. text.items ≡ directives_line offsets.now) }
{
    let mut text = Vec::new(alloc);
    put(&mut text, b"  directives [")?;
    put_numbers(&mut text, offsets)?;
    put(&mut text, b"]\n")?;
    Ok(text)
}
