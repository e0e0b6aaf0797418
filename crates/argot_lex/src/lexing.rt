// All tokens and directives of a file.
ghost use Rattle.std.specs.Prelude.{◌≡◌, ◌^◌, ◌<◌, ◌≤◌, ◌++◌, ℕ, List, length, IfOk, IfErr, OnOk, Option};
ghost use Rattle.argot_tree.specs.declared.lexed.Lexed.{Lexed};
ghost use Rattle.argot_tree.specs.Comments.{begins_with};
ghost use Rattle.argot_tree.specs.Text.{SpellsText, token_ends, pending_after, inserted, given, pending_behind, directed, order_mark};
ghost use Rattle.argot_lex.specs.Refused.{IsRefused};

use crate::front::piece_from;
use argot_text::Sequence;
use argot_tree::{Keyword, Lexed, Mark, Piece, Token, TokenKind};
use std::alloc::{AllocError, Global};
use thiserror::Error;

/// Why a file has no tokens.
#[derive(Debug, Drop, Error)]
pub enum LexFault {
    /// No piece begins at this offset.
    #[error("no token begins at byte {offset}")]
    Bad { offset: u32 },
    /// There was no memory left.
    #[error("out of memory")]
    Memory,
}

impl From<AllocError> for LexFault {
    ghost use Rattle.std.specs.Prelude.{◌≡◌};
    ghost use Rattle.argot_lex.specs.declared.lexing.LexFault.TheVariants.{Memory};

    ghost from_gives = { λ _ e. e ≡ Memory };

    fn from(_e: AllocError) -> LexFault {
        LexFault::Memory
    }
}

// A line that ends behind such a token has a semicolon.
fn token_ends(kind: TokenKind) -> bool
    ensures { result ≡ token_ends kind }
{
    match kind {
        TokenKind::Word(word) => matches!(
            word,
            Keyword::Break | Keyword::Continue | Keyword::Fallthrough | Keyword::Return
        ),
        TokenKind::Mark(mark) => matches!(
            mark,
            Mark::Increment
                | Mark::Decrement
                | Mark::CloseParen
                | Mark::CloseBracket
                | Mark::CloseBrace
        ),
        TokenKind::Inserted => false,
        _ => true,
    }
}

fn pending_after(kind: TokenKind, end: u32) -> Option<u32>
    ensures { result ≡ pending_after kind end }
{
    if token_ends(kind) { Some(end) } else { None }
}

// The semicolon at the end of a line.
fn end_line(tokens: &mut Vec<Token>, pending: Option<u32>) -> Result<(), AllocError>
    ensures { OnOk result (tokens.new.items ≡ tokens.old.items ++ inserted pending) }
{
    if let Some(end) = pending {
        tokens.push(Token {
            kind: TokenKind::Inserted,
            start: end,
            end,
        })?;
    }
    Ok(())
}

// Takes the tokens of a piece, and gives what is pending behind it.
fn take_tokens(
    tokens: &mut Vec<Token>,
    piece: Piece,
    start: u32,
    end: u32,
    pending: Option<u32>,
) -> Result<Option<u32>, AllocError>
    ensures value { IfOk result (λ after. after ≡ pending_behind piece end pending) }
    ensures tokens { OnOk result (tokens.new.items ≡ tokens.old.items ++ given piece start end pending) }
{
    match piece {
        Piece::Space | Piece::Comment => Ok(pending),
        Piece::Newline | Piece::LineComment | Piece::Directive | Piece::LongComment => {
            end_line(tokens, pending)?;
            Ok(None)
        }
        Piece::Token(kind) => {
            tokens.push(Token { kind, start, end })?;
            Ok(pending_after(kind, end))
        }
    }
}

// Takes the directive that a piece is.
fn take_directive(directives: &mut Vec<u32>, piece: Piece, at: u32) -> Result<(), AllocError>
    ensures { OnOk result (directives.new.items ≡ directives.old.items ++ directed piece at) }
{
    match piece {
        Piece::Directive => {
            directives.push(at)?;
            Ok(())
        }
        _ => Ok(()),
    }
}

// How long the byte order mark at the start is.
fn order_mark(bytes: &[u8]) -> usize
    ensures value { result ≡ order_mark bytes.now }
    ensures within { result ≤ length bytes.now }
{
    match bytes {
        [239, 187, 191, ..] => 3,
        _ => 0,
    }
}

/// The tokens and directives that spell the bytes, or the first offset at which no piece begins.
pub fn lex(alloc: Global, bytes: &[u8]) -> Result<Lexed, LexFault>
    requires { length bytes.now < 2 ^ 32 }
    ensures ok { IfOk result (λ lexed. SpellsText lexed bytes.now) }
    ensures bad { IfErr result (IsRefused bytes.now) }
{
    let mut tokens = Vec::new(alloc);
    let mut directives = Vec::new(alloc);
    let mut at = order_mark(bytes);
    let mut pending: Option<u32> = None;
    while at < bytes.len() {
        let Some((piece, len)) = piece_from(bytes, at) else {
            return Err(LexFault::Bad { offset: at as u32 });
        };
        let end = at + len;
        take_directive(&mut directives, piece, at as u32)?;
        pending = take_tokens(&mut tokens, piece, at as u32, end as u32, pending)?;
        at = end;
    }
    end_line(&mut tokens, pending)?;
    Ok(Lexed {
        tokens: Sequence::from_vec(tokens),
        directives: Sequence::from_vec(directives),
    })
}

/// At most one list of tokens, and one of directives, spells a file.
pub fn one_spelling()
    ensures { (a b : Lexed) (text : List ℕ) → SpellsText a text → SpellsText b text → (a.tokens ≡ b.tokens) × (a.directives ≡ b.directives) }
{}
