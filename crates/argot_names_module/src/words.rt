// Words between separators, and what stands before a comment.
ghost use Rattle.std.specs.Prelude.{◌≡◌, ◌≤◌, nat_eq, codes, length, drop, take};
ghost use Rattle.std.specs.List.{prefix_len, starts_with};
ghost use Rattle.argot_names_rules.specs.GoMod.{separates, before_comment};
ghost use Rattle.argot_names_module.specs.Lines.{is_in_word, is_in_line, behind_blank, word_of, behind_word};

/// Whether the byte is a space, a tab or a carriage return.
fn separates(b: u8) -> bool
    ensures { result ≡ separates b }
{
    b == b' ' || b == b'\t' || b == b'\r'
}

/// How many separators stand at the front.
pub fn blank_len(text: &[u8]) -> usize
    ensures len { result ≡ prefix_len separates text.now }
    ensures within { result ≤ length text.now }
{
    for (i, b) in text.iter().enumerate() {
        if !separates(*b) {
            return i;
        }
    }
    text.len()
}

/// How long the word at the front is.
fn word_len(text: &[u8]) -> usize
    ensures len { result ≡ prefix_len is_in_word text.now }
    ensures within { result ≤ length text.now }
{
    for (i, b) in text.iter().enumerate() {
        if separates(*b) {
            return i;
        }
    }
    text.len()
}

/// How long the line at the front is.
pub fn line_len(text: &[u8]) -> usize
    ensures len { result ≡ prefix_len is_in_line text.now }
    ensures within { result ≤ length text.now }
{
    for (i, b) in text.iter().enumerate() {
        if *b == b'\n' {
            return i;
        }
    }
    text.len()
}

/// What stands behind the separators at the front.
pub fn behind_blank(text: &[u8]) -> &[u8]
    ensures { result.now ≡ behind_blank text.now }
{
    &text[blank_len(text)..]
}

/// The word at the front.
pub fn word_of(text: &[u8]) -> &[u8]
    ensures { result.now ≡ word_of text.now }
{
    &text[..word_len(text)]
}

/// What stands behind the word at the front.
pub fn behind_word(text: &[u8]) -> &[u8]
    ensures { result.now ≡ behind_word text.now }
{
    &text[word_len(text)..]
}

/// The bytes from an offset on.
pub fn rest(text: &[u8], at: usize) -> &[u8]
    requires { at ≤ length text.now }
    ensures { result.now ≡ drop at text.now }
{
    text.split_at(at).1
}

/// Whether a comment begins at the front.
fn begins_comment(text: &[u8]) -> bool
    ensures { result ≡ starts_with nat_eq text.now (codes "//") }
{
    text.starts_with("//".as_bytes())
}

/// How much stands before the first comment.
fn comment_at(line: &[u8]) -> usize
    ensures text { before_comment line.now ≡ take result line.now }
    ensures within { result ≤ length line.now }
{
    for i in 0..line.len() {
        if begins_comment(rest(line, i)) {
            return i;
        }
    }
    line.len()
}

/// What stands before the first comment.
pub fn before_comment(line: &[u8]) -> &[u8]
    ensures { result.now ≡ before_comment line.now }
{
    &line[..comment_at(line)]
}
