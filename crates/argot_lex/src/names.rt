// Names and keywords.
ghost use Rattle.std.specs.Prelude.{◌≡◌, length, ◌≤◌};
ghost use Rattle.std.specs.Str.{bytes_eq};
ghost use Rattle.argot_tree.specs.Names.{keyword_text};
ghost use Rattle.argot_lex.specs.Names.{candidate, keyword_of, name_front};

use crate::characters::{Class, run_of};
use argot_tree::{Keyword, TokenKind};

// The one keyword that bytes which begin so, of so many, may write.
#[tactic(auto, unfolding(crate::specs::Names::candidate))]
fn candidate(len: usize, first: u8, second: u8) -> Option<Keyword>
    ensures { result ≡ candidate len first second }
{
    match first {
        b'b' => Some(Keyword::Break),
        b'c' => match second {
            b'a' => Some(Keyword::Case),
            b'h' => Some(Keyword::Chan),
            _ => {
                if len == 5 {
                    Some(Keyword::Const)
                } else {
                    Some(Keyword::Continue)
                }
            }
        },
        b'd' => {
            if len == 7 {
                Some(Keyword::Default)
            } else {
                Some(Keyword::Defer)
            }
        }
        b'e' => Some(Keyword::Else),
        b'f' => match second {
            b'a' => Some(Keyword::Fallthrough),
            b'o' => Some(Keyword::For),
            _ => Some(Keyword::Func),
        },
        b'g' => {
            if len == 2 {
                Some(Keyword::Go)
            } else {
                Some(Keyword::Goto)
            }
        }
        b'i' => match second {
            b'f' => Some(Keyword::If),
            b'm' => Some(Keyword::Import),
            _ => Some(Keyword::Interface),
        },
        b'm' => Some(Keyword::Map),
        b'p' => Some(Keyword::Package),
        b'r' => match second {
            b'a' => Some(Keyword::Range),
            _ => Some(Keyword::Return),
        },
        b's' => match second {
            b'e' => Some(Keyword::Select),
            b't' => Some(Keyword::Struct),
            _ => Some(Keyword::Switch),
        },
        b't' => Some(Keyword::TypeWord),
        b'v' => Some(Keyword::Var),
        _ => None,
    }
}

// How the keyword is written.
fn text_of(word: Keyword) -> &'static str
    ensures { result.now ≡ keyword_text word }
{
    match word {
        Keyword::Break => "break",
        Keyword::Case => "case",
        Keyword::Chan => "chan",
        Keyword::Const => "const",
        Keyword::Continue => "continue",
        Keyword::Default => "default",
        Keyword::Defer => "defer",
        Keyword::Else => "else",
        Keyword::Fallthrough => "fallthrough",
        Keyword::For => "for",
        Keyword::Func => "func",
        Keyword::Go => "go",
        Keyword::Goto => "goto",
        Keyword::If => "if",
        Keyword::Import => "import",
        Keyword::Interface => "interface",
        Keyword::Map => "map",
        Keyword::Package => "package",
        Keyword::Range => "range",
        Keyword::Return => "return",
        Keyword::Select => "select",
        Keyword::Struct => "struct",
        Keyword::Switch => "switch",
        Keyword::TypeWord => "type",
        Keyword::Var => "var",
    }
}

// The keyword that the bytes are.
#[tactic(auto, unfolding(crate::specs::Names::keyword_of))]
fn keyword_of(bytes: &[u8]) -> Option<Keyword>
    ensures { result ≡ keyword_of bytes.now }
{
    let [first, second, ..] = bytes else {
        return None;
    };
    let word = candidate(bytes.len(), *first, *second)?;
    if bytes == text_of(word).as_bytes() {
        Some(word)
    } else {
        None
    }
}

/// The name or keyword at the front, and its length.
pub fn name_front(text: &[u8]) -> (TokenKind, usize)
    ensures value { result ≡ name_front text.now }
    ensures within { result.1 ≤ length text.now }
{
    let n = run_of(Class::Word, text);
    let kind = match keyword_of(&text[..n]) {
        Some(word) => TokenKind::Word(word),
        None => TokenKind::Name,
    };
    (kind, n)
}
