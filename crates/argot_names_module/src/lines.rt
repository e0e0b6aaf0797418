// Lines.
ghost use Rattle.std.specs.Prelude.{◌≡◌, ◌≢◌, ◌↔◌, ℕ, List, [], ◌<◌, ◌^◌, IsTrue, IfSome, IfNone, drop, length};
ghost use Rattle.std.specs.Str.{IsUtf8};
ghost use Rattle.argot_names_rules.specs.GoMod.{line_at, HasWords, FirstLine};

use crate::words::{before_comment, behind_blank, behind_word, blank_len, line_len, rest, word_of};

/// The bytes from an offset on; none where there is no such offset.
fn from(bytes: &[u8], at: usize) -> &[u8]
    ensures { result.now ≡ drop at bytes.now }
{
    if at <= bytes.len() {
        rest(bytes, at)
    } else {
        &[]
    }
}

/// The bytes from an offset up to the end of the line.
pub fn line_at(bytes: &[u8], at: usize) -> &[u8]
    ensures { result.now ≡ line_at bytes.now at }
{
    let text = from(bytes, at);
    &text[..line_len(text)]
}

/// A line that has two words or more: where its first word stands in the file, and the second.
#[derive(Clone, Copy, Debug)]
pub struct Line<'a> {
    pub offset: usize,
    pub second: &'a [u8],
}

/// Whether the bytes are UTF-8.
fn is_text(line: &[u8]) -> bool
    ensures { IsTrue result ↔ IsUtf8 line.now }
{
    std::str::from_utf8(line).is_ok()
}

/// Whether the bytes are those of the word.
fn is_same(text: &[u8], word: &[u8]) -> bool
    ensures { IsTrue result ↔ (text.now ≡ word.now) }
{
    text == word
}

/// Whether there are bytes.
pub fn is_some(text: &[u8]) -> bool
    ensures { IsTrue result ↔ (text.now ≢ []) }
{
    !text.is_empty()
}

/// The second word of a line whose first word is this one, and how many separators stand before them.
fn words_of<'a>(line: &'a [u8], word: &[u8]) -> Option<Line<'a>>
    ensures some { IfSome result (λ l. HasWords line.now word.now l.second.now l.offset) }
    ensures none { IfNone result ((second : List ℕ) (skipped : ℕ) → HasWords line.now word.now second skipped → ⊥) }
{
    if !is_text(line) {
        return None;
    }
    let text = before_comment(line);
    let offset = blank_len(text);
    let front = behind_blank(text);
    let second = word_of(behind_blank(behind_word(front)));
    if !is_same(word_of(front), word) {
        return None;
    }
    if !is_some(word) {
        return None;
    }
    if !is_some(second) {
        return None;
    }
    Some(Line { offset, second })
}

/// The first line whose first word is this one and that has another behind it: where its first word stands, and the second.
/// No memory.
pub fn first_line<'a>(bytes: &'a [u8], word: &[u8]) -> Option<Line<'a>>
    requires { length bytes.now < 2 ^ 63 }
    ensures some { IfSome result (λ l. FirstLine bytes.now word.now l.offset l.second.now) }
    ensures one { IfSome result (λ l. (offset : ℕ) (second : List ℕ)
        → FirstLine bytes.now word.now offset second → (offset ≡ l.offset) × (second ≡ l.second.now)) }
    ensures none { IfNone result ((offset : ℕ) (second : List ℕ) → FirstLine bytes.now word.now offset second → ⊥) }
{
    let mut at = 0;
    while at <= bytes.len() {
        let line = line_at(bytes, at);
        if let Some(words) = words_of(line, word) {
            return Some(Line {
                offset: at + words.offset,
                second: words.second,
            });
        }
        at += line.len() + 1;
    }
    None
}
