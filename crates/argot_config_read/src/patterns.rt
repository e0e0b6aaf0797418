// The making of patterns, as a caller sees it.
ghost use Rattle.std.specs.Prelude.{List, ℕ, Option};
ghost use Rattle.argot_config_read.specs.Compiling.{Compiles};

use argot_text::Memory;
use regex::Regex;
use std::alloc::Global;
use thiserror::Error;

/// Why a pattern wasn't made.
#[derive(Clone, Copy, Debug, PartialEq, Eq, Error)]
pub enum PatternFault {
    /// The text isn't a pattern, or nests too deeply.
    #[error("no pattern")]
    NoPattern,
    /// It was refused for its size.
    #[error("too large")]
    Size,
    /// There was no memory left.
    #[error("out of memory")]
    Memory,
}

impl From<Memory> for PatternFault {
    ghost use Rattle.std.specs.Prelude.{◌≡◌};
    ghost use Rattle.argot_config_read.specs.declared.patterns.PatternFault.TheVariants as fault;

    ghost from_gives = { λ _ e. e ≡ fault.Memory };

    fn from(_: Memory) -> PatternFault {
        PatternFault::Memory
    }
}

/// A maker of patterns.
pub trait Patterns {
    /// How often a pattern was refused for its size. It never falls.
    ghost refusals: { Self → ℕ };

    /// The text that was refused last.
    ghost last: { Self → Option (List ℕ) };

    /// The pattern that the grammar of `regex` reads from the text. `NoPattern` comes only where the text has no
    /// reading there or nests too deeply, `Size` only where `refusals` rose, and then `last` is the text; other answers
    /// change neither.
    fn compile(&mut self, alloc: Global, text: &str) -> Result<Regex, PatternFault>
        ensures { Compiles text.now result (refusals self.old) (refusals self.new) (last self.old) (last self.new) };
}
