//! What is left of a file's text, and the steps that were read before it.

ghost use Rattle.std.specs.Prelude.{◌≡◌, ◌==◌, if◌then◌else◌, length, Some};
ghost use Rattle.std.specs.List.{list_all};
ghost use Rattle.argot_first_form.specs.Reading.{begins, behind, past, name, quoted, place, pushed, next_step, ending, opening, quotable_of, Gives, Moves};

use crate::bytes::{alphanumeric_len, is_name, quotable_len};
use crate::fault::Fault;
use crate::steps::{Action, Name, Operand, Step};
use sqlite_items::Items;
use std::alloc::Global;
use std::marker::Model;

/// What is left of a file's text, and the steps that were read before it.
#[derive(Drop)]
pub struct Reader<'a> {
    total: usize,
    rest: &'a [u8],
    steps: Vec<Step>,
}

impl<'a> Model for Reader<'a> {
    ghost use Rattle.argot_first_form.specs.Front.{Front};

    ghost Value = { Front };

    ghost use Rattle.std.specs.Prelude.{◌≤◌, length};

    ghost view = { λ r. record { total = r.total; rest = r.rest.now; steps = r.steps.items } };

    ghost invariant = { λ r. length r.rest.now ≤ r.total };
}

impl Reader<'_> {
    /// Whether the text begins so.
    pub fn begins(&self, text: &[u8]) -> bool
        ensures { result ≡ begins text.now self.now }
    {
        self.rest.starts_with(text)
    }

    /// Goes on behind the text where it stands there.
    pub fn skips(&mut self, text: &[u8]) -> bool
        ensures value { result ≡ begins text.now self.old }
        ensures after { self.new ≡ (if result then behind (length text.now) self.old else self.old) }
    {
        if self.begins(text) {
            self.rest = &self.rest[text.len()..];
            true
        } else {
            false
        }
    }

    /// Goes on behind a text that must stand there.
    pub fn takes(&mut self, text: &[u8]) -> Result<(), Fault>
        ensures { Moves result self.new (past text.now self.old) }
    {
        if self.skips(text) {
            Ok(())
        } else {
            Err(Fault::OtherForm)
        }
    }

    /// A name.
    #[tactic(auto, unfolding(crate::specs::Reading::name))]
    pub fn name(&mut self, alloc: Global) -> Result<Name, Fault>
        ensures { Gives (λ n. n) result self.new (name self.old) }
    {
        let len = alphanumeric_len(self.rest);
        let text = &self.rest[..len];
        if !is_name(text) {
            return Err(Fault::OtherForm);
        }
        let name = Items::from_slice(alloc, text)?;
        self.rest = &self.rest[len..];
        Ok(name)
    }

    fn skips_quotable(&mut self)
        ensures { self.new ≡ behind (length (quotable_of self.old)) self.old }
    {
        let len = quotable_len(self.rest);
        self.rest = &self.rest[len..];
    }

    /// A text in quotes.
    #[tactic(auto, unfolding(crate::specs::Reading::quoted))]
    pub fn quoted(&mut self) -> Result<(), Fault>
        ensures { Moves result self.new (quoted self.old) }
    {
        self.takes(b"\"")?;
        self.skips_quotable();
        self.takes(b"\"")
    }

    /// The place in the file.
    pub fn place(&self) -> usize
        ensures { result ≡ place self.now }
    {
        self.total - self.rest.len()
    }

    /// The length of the file.
    pub fn total(&self) -> usize
        ensures { result ≡ self.now.total }
    {
        self.total
    }

    /// The operand that the next step gives.
    pub fn next_step(&self) -> Operand
        ensures { result ≡ next_step self.now }
    {
        Operand::Step(self.steps.len())
    }

    /// Adds a step.
    pub fn push(&mut self, at: usize, action: Action) -> Result<(), Fault>
        ensures { Moves result self.new (Some (pushed at action self.old)) }
    {
        self.steps.push(Step { at, action })?;
        Ok(())
    }

    /// Whether nothing but blank lines is left.
    pub fn is_at_end(&self) -> bool
        ensures { result ≡ ending self.now }
    {
        only_newlines(self.rest)
    }

    /// The steps that were read.
    pub fn into_steps(self) -> Vec<Step>
        ensures { result.items ≡ self.entry.steps }
    {
        let Reader {
            total: _,
            rest: _,
            steps,
        } = self;
        steps
    }
}

fn only_newlines(text: &[u8]) -> bool
    ensures { result ≡ list_all (λ b. b == 10) text.now }
{
    text.iter().all(|b| *b == b'\n')
}

/// A reader of the whole text.
pub fn open(alloc: Global, text: &[u8]) -> Reader<'_>
    ensures { result ≡ opening text.now }
{
    Reader {
        total: text.len(),
        rest: text,
        steps: Vec::new(alloc),
    }
}
