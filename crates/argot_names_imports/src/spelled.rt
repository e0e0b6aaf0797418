// The bytes of a token.
ghost use Rattle.std.specs.Prelude.{◌≡◌, slice_get};
ghost use Rattle.std.specs.List.{slice_range};
ghost use Rattle.argot_names_rules.specs.Files.{spelled};

use argot_tree::Token;

// The bytes from one offset to another, as far as there are some.
fn range_of(bytes: &[u8], start: usize, end: usize) -> &[u8]
    ensures { result.now ≡ slice_range bytes.now start end }
{
    let from = start.min(bytes.len());
    let to = end.min(bytes.len()).max(from);
    &bytes[from..to]
}

/// The bytes of the token of this number; nothing where there is none. No memory.
pub fn spelled_at<'a>(bytes: &'a [u8], tokens: &[Token], at: u32) -> &'a [u8]
    ensures { result.now ≡ spelled bytes.now (slice_get tokens.now at) }
{
    match tokens.get(at as usize) {
        Some(token) => range_of(bytes, token.start as usize, token.end as usize),
        None => &[],
    }
}
