// The texts of names.
ghost use Rattle.std.specs.Prelude.{◌≡◌, ◌↔◌, IsTrue, codes, slice_get};
ghost use Rattle.argot_names_scopes.specs.Texts.{text_in};

use argot_files::range_of;
use argot_tree::Token;

/// The bytes of the token of this number; nothing where there is none. No memory.
pub fn spelled_of<'a>(bytes: &'a [u8], tokens: &[Token], at: usize) -> &'a [u8]
    ensures { result.now ≡ text_in bytes.now tokens.now at }
{
    match tokens.get(at) {
        Some(token) => range_of(bytes, token.start as usize, token.end as usize),
        None => &[],
    }
}

/// The bytes of the token of this number; nothing where there is none. No memory.
pub fn spelled_at<'a>(bytes: &'a [u8], tokens: &[Token], at: u32) -> &'a [u8]
    ensures { result.now ≡ text_in bytes.now tokens.now at }
{
    spelled_of(bytes, tokens, at as usize)
}

/// Whether the token has these bytes.
pub fn is_spelled(bytes: &[u8], tokens: &[Token], at: u32, name: &[u8]) -> bool
    ensures { IsTrue result ↔ (text_in bytes.now tokens.now at ≡ name.now) }
{
    spelled_at(bytes, tokens, at) == name
}

/// Whether the token is the name `_`.
pub fn is_blank(bytes: &[u8], tokens: &[Token], at: u32) -> bool
    ensures { IsTrue result ↔ (text_in bytes.now tokens.now at ≡ codes "_") }
{
    spelled_at(bytes, tokens, at) == b"_".as_slice()
}
