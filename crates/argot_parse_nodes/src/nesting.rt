// How deeply tokens are nested.
ghost use Rattle.std.specs.Prelude.{◌≡◌, ◌<◌, ◌+◌, ◌-◌, ◌^◌, length, IfSome, IfNone, if◌then◌else◌};
ghost use Rattle.argot_tree.specs.Nesting.{opens, closes, resets, counts, IsTooDeep, IsShallow};

use argot_tree::{Keyword, Mark, Token, TokenKind};

const DEEPEST: u64 = 200;

fn opens(kind: TokenKind) -> bool
    ensures { result ≡ opens kind }
{
    matches!(
        kind,
        TokenKind::Mark(Mark::OpenParen)
            | TokenKind::Mark(Mark::OpenBracket)
            | TokenKind::Mark(Mark::OpenBrace)
    )
}

fn closes(kind: TokenKind) -> bool
    ensures { result ≡ closes kind }
{
    matches!(
        kind,
        TokenKind::Mark(Mark::CloseParen)
            | TokenKind::Mark(Mark::CloseBracket)
            | TokenKind::Mark(Mark::CloseBrace)
    )
}

fn resets(kind: TokenKind) -> bool
    ensures { result ≡ resets kind }
{
    matches!(
        kind,
        TokenKind::Mark(Mark::Semicolon)
            | TokenKind::Inserted
            | TokenKind::Mark(Mark::Comma)
            | TokenKind::Mark(Mark::OpenBrace)
            | TokenKind::Mark(Mark::OpenParen)
    )
}

fn counts(kind: TokenKind) -> bool
    ensures { result ≡ counts kind }
{
    match kind {
        TokenKind::Mark(mark) => matches!(
            mark,
            Mark::Not
                | Mark::Plus
                | Mark::Minus
                | Mark::Xor
                | Mark::Star
                | Mark::And
                | Mark::Arrow
                | Mark::CloseBracket
        ),
        TokenKind::Word(word) => matches!(word, Keyword::Chan | Keyword::Func | Keyword::Map),
        _ => false,
    }
}

// Brackets that are opened behind one more token.
fn open_after(opened: u64, kind: TokenKind) -> u64
    requires { opened < 2 ^ 63 }
    ensures { result ≡ (if opens kind then opened + 1 else (if closes kind then opened - 1 else opened)) }
{
    if opens(kind) {
        return opened + 1;
    }
    if closes(kind) {
        return opened.saturating_sub(1);
    }
    opened
}

// Tokens that count behind one more token.
fn count_after(count: u64, kind: TokenKind) -> u64
    requires { count < 2 ^ 63 }
    ensures { result ≡ (if resets kind then 0 else (if counts kind then count + 1 else count)) }
{
    if resets(kind) {
        return 0;
    }
    if counts(kind) {
        return count + 1;
    }
    count
}

/// The first token that is nested deeper than 200.
pub fn first_too_deep(tokens: &[Token]) -> Option<usize>
    requires { length tokens.now < 2 ^ 32 }
    ensures deep { IfSome result (IsTooDeep tokens.now) }
    ensures shallow { IfNone result (IsShallow tokens.now) }
{
    let mut opened = 0;
    let mut count = 0;
    let mut at = 0;
    while at < tokens.len() {
        if opened + count > DEEPEST {
            return Some(at);
        }
        let kind = tokens[at].kind;
        opened = open_after(opened, kind);
        count = count_after(count, kind);
        at += 1;
    }
    None
}
