// The bytes of tokens.
ghost use Rattle.std.specs.Prelude.{◌≡◌, slice_get};
ghost use Rattle.std.specs.List.{slice_range};
ghost use Rattle.argot_names_rules.specs.Files.{spelled};

use argot_tree::Token;

/// The bytes from one offset to another, as far as there are some. No memory.
pub fn range_of(bytes: &[u8], start: usize, end: usize) -> &[u8]
    ensures { result.now ≡ slice_range bytes.now start end }
{
    let from = start.min(bytes.len());
    let to = end.min(bytes.len()).max(from);
    &bytes[from..to]
}

/// The bytes of a token; none where there is no such token. No memory.
pub fn spelled_at<'a>(bytes: &'a [u8], tokens: &[Token], token: u32) -> &'a [u8]
    ensures { result.now ≡ spelled bytes.now (slice_get tokens.now token) }
{
    match tokens.get(token as usize) {
        Some(token) => range_of(bytes, token.start as usize, token.end as usize),
        None => &[],
    }
}
