//! Names, texts in quotes, and the words that are no names.

ghost use Rattle.std.specs.Prelude.{◌≡◌, ◌≤◌, length};
ghost use Rattle.std.specs.List.{list_all, list_any, prefix_len};
ghost use Rattle.std.specs.Str.{bytes_eq};
ghost use Rattle.std.specs.Char.{is_ascii_alphanumeric};
ghost use Rattle.argot_first_form.specs.Bytes.{is_word, is_reserved, is_name, is_quotable};

/// The keywords, the predeclared names, `main` and `init`.
pub const RESERVED: [&str; 71] = [
    "break",
    "case",
    "chan",
    "const",
    "continue",
    "default",
    "defer",
    "else",
    "fallthrough",
    "for",
    "func",
    "go",
    "goto",
    "if",
    "import",
    "interface",
    "map",
    "package",
    "range",
    "return",
    "select",
    "struct",
    "switch",
    "type",
    "var",
    "bool",
    "string",
    "int",
    "int8",
    "int16",
    "int32",
    "int64",
    "uint",
    "uint8",
    "uint16",
    "uint32",
    "uint64",
    "byte",
    "rune",
    "error",
    "any",
    "true",
    "false",
    "iota",
    "nil",
    "append",
    "cap",
    "clear",
    "close",
    "copy",
    "delete",
    "len",
    "make",
    "max",
    "min",
    "new",
    "panic",
    "print",
    "println",
    "recover",
    "float32",
    "float64",
    "complex64",
    "complex128",
    "uintptr",
    "comparable",
    "complex",
    "real",
    "imag",
    "main",
    "init",
];

/// How many ASCII letters and digits the text begins with.
pub fn alphanumeric_len(text: &[u8]) -> usize
    ensures value { result ≡ prefix_len is_ascii_alphanumeric text.now }
    ensures within { result ≤ length text.now }
{
    let mut len = 0;
    for b in text {
        if !b.is_ascii_alphanumeric() {
            return len;
        }
        len += 1;
    }
    len
}

/// How many ASCII letters, digits and spaces the text begins with.
pub fn quotable_len(text: &[u8]) -> usize
    ensures value { result ≡ prefix_len is_quotable text.now }
    ensures within { result ≤ length text.now }
{
    let mut len = 0;
    for b in text {
        if !(b.is_ascii_alphanumeric() || *b == b' ') {
            return len;
        }
        len += 1;
    }
    len
}

fn all_alphanumeric(text: &[u8]) -> bool
    ensures { result ≡ list_all is_ascii_alphanumeric text.now }
{
    text.iter().all(|b| b.is_ascii_alphanumeric())
}

/// Whether this is an ASCII letter followed by ASCII letters and digits.
pub fn is_word(name: &[u8]) -> bool
    ensures { result ≡ is_word name.now }
{
    match name.first() {
        Some(first) => first.is_ascii_alphabetic() && all_alphanumeric(name),
        None => false,
    }
}

fn is_among(name: &[u8], words: &[&str]) -> bool
    ensures { result ≡ list_any (λ w. bytes_eq w.now name.now) words.now }
{
    words.iter().any(|word| word.as_bytes() == name)
}

fn is_reserved(name: &[u8]) -> bool
    ensures { result ≡ is_reserved name.now }
{
    is_among(name, &RESERVED)
}

/// Whether this may be a name of the program.
#[tactic(auto, unfolding(crate::specs::Bytes::is_name))]
pub fn is_name(name: &[u8]) -> bool
    ensures { result ≡ is_name name.now }
{
    is_word(name) && !is_reserved(name)
}
