// The maker of patterns by `regex`. It is a trusted edge: that `regex` refuses no pattern without need is shown by tests.
ghost use Rattle.std.specs.Prelude.{◌≡◌, None, Some};
ghost use Rattle.argot_config_read.specs.Compiling.{Compiles, counted};
ghost use Rattle.argot_config_read.specs.Making.{Counts, Refuses};
ghost use Rattle.argot_config_read.specs.declared.patterns.PatternFault.{PatternFault};

use crate::{PatternFault, Patterns};
use argot_text::Text;
use regex::{Error, Regex};
use std::alloc::Global;
use std::marker::Model;

/// Makes patterns with `regex`. It answers `Size`, and counts it, where `regex` refuses for another cause than syntax
/// and memory, and at the call whose number, counted from 1, it was handed.
#[derive(Debug, Drop)]
pub struct Maker {
    refusing: u32,
    calls: u64,
    refusals: u64,
    last: Option<Text>,
}

impl Model for Maker {
    ghost use Rattle.argot_config_read.specs.Making.{Making};

    ghost Value = { Making };

    ghost view = { λ it. record { refusing = it.refusing; calls = it.calls; refusals = it.refusals; last = it.last } };
}

impl Maker {
    /// A maker that refuses the call of this number; 0 is none. It takes no memory.
    pub fn new(refusing: u32) -> Maker
        ensures { result ≡ record { refusing = refusing; calls = 0; refusals = 0; last = None } }
    {
        Maker {
            refusing,
            calls: 0,
            refusals: 0,
            last: None,
        }
    }

    /// How often it has refused a pattern for its size.
    pub fn refusals(&self) -> u64
        ensures { result ≡ self.now.refusals }
    {
        self.refusals
    }

    /// The text that it refused last.
    pub fn last(&self) -> &Option<Text>
        ensures { result.now ≡ self.now.last }
    {
        &self.last
    }

    // Counts a refusal of the text.
    fn refuse(&mut self, text: Text) -> PatternFault
        ensures fault { result ≡ PatternFault.Size }
        ensures counts { self.new ≡ record self.old { refusals = counted self.old.refusals; last = Some text } }
    {
        self.refusals = self.refusals.saturating_add(1);
        self.last = Some(text);
        PatternFault::Size
    }
}

impl Patterns for Maker {
    ghost refusals = { λ it. it.refusals };

    ghost last = { λ it. it.last };

    #[tactic(auto, using(crate::proofs::Readings::too_large_is_read))]
    /// The pattern of the text, made by `regex` after the text is copied.
    fn compile(&mut self, alloc: Global, text: &str) -> Result<Regex, PatternFault>
        ensures compiles { Compiles text.now result self.old.refusals self.new.refusals self.old.last self.new.last }
        ensures refuses { Refuses self.old text.now result }
        ensures counts { Counts self.old self.new text.now result }
    {
        self.calls = self.calls.saturating_add(1);
        let asked = Text::from_str(alloc, text)?;
        if self.calls == self.refusing as u64 {
            return Err(self.refuse(asked));
        }
        match Regex::new(alloc, text) {
            Ok(made) => Ok(made),
            Err(Error::Syntax(_)) => Err(PatternFault::NoPattern),
            Err(Error::OutOfMemory) => Err(PatternFault::Memory),
            Err(Error::CompiledTooBig | Error::Internal) => Err(self.refuse(asked)),
        }
    }
}
