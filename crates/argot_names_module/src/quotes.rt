// A word without the quotes at its ends.
ghost use Rattle.std.specs.Prelude.{◌≡◌, ◌≤◌, ◌++◌, ◌∷◌, [], ℕ, List, true, false, drop, take, length};
ghost use Rattle.std.specs.List.{prefix_len, list_all};
ghost use Rattle.argot_names_rules.specs.GoMod.{is_quote, IsCut};

/// Whether the byte is a double quote or a backquote.
fn is_quote(b: u8) -> bool
    ensures { result ≡ is_quote b }
{
    b == b'"' || b == b'`'
}

/// How many quotes stand at the front.
fn quotes_len(text: &[u8]) -> usize
    ensures len { result ≡ prefix_len is_quote text.now }
    ensures within { result ≤ length text.now }
{
    for (i, b) in text.iter().enumerate() {
        if !is_quote(*b) {
            return i;
        }
    }
    text.len()
}

/// What stands behind them.
fn behind_quotes(text: &[u8]) -> &[u8]
    ensures { result.now ≡ drop (prefix_len is_quote text.now) text.now }
{
    &text[quotes_len(text)..]
}

/// Where the quotes at the end begin.
fn quotes_at(text: &[u8]) -> usize
    ensures within { result ≤ length text.now }
    ensures quotes { list_all is_quote (drop result text.now) ≡ true }
    ensures before { (b : ℕ) (bs : List ℕ) → take result text.now ≡ bs ++ b ∷ [] → is_quote b ≡ false }
{
    let mut at = text.len();
    while at > 0 {
        if !is_quote(text[at - 1]) {
            return at;
        }
        at -= 1;
    }
    0
}

/// The word without them. No memory.
pub fn unquoted(word: &[u8]) -> &[u8]
    ensures { IsCut word.now result.now }
{
    let behind = behind_quotes(word);
    &behind[..quotes_at(behind)]
}
