// Why tokens have no tree.
use argot_text::Memory;
use thiserror::Error;

/// Why tokens have no tree.
#[derive(Debug, Drop, Error)]
pub enum ParseFault {
    /// No tree spells the tokens. This is the furthest token at which one that is needed was missing; the number of
    /// tokens stands for the end of the file.
    #[error("a syntax fault at token {token}")]
    Syntax { token: u32 },
    /// The first token that is nested deeper than 200.
    #[error("token {token} is nested too deeply")]
    TooDeep { token: u32 },
    /// There was no memory left, or there are 2^32 tokens or nodes.
    #[error("out of memory")]
    Memory,
}

impl From<Memory> for ParseFault {
    ghost use Rattle.std.specs.Prelude.{◌≡◌};
    ghost use Rattle.argot_grammar.specs.declared.fault.ParseFault.TheVariants.{Memory};

    ghost from_gives = { λ _ e. e ≡ Memory };

    fn from(_: Memory) -> ParseFault {
        ParseFault::Memory
    }
}
