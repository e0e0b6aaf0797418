// Where an answer goes.
ghost use Rattle.std.specs.Prelude.{◌≤◌, List, ℕ, Option};
ghost use Rattle.argot_io.specs.Taken.{Writes};

use thiserror::Error;

/// Why a piece wasn't taken.
#[derive(Clone, Copy, Debug, PartialEq, Eq, Error)]
pub enum SinkFault {
    #[error("it failed")]
    Failed,
}

/// Something that takes bytes.
pub trait Sink {
    /// The bytes taken so far, where the sink tells.
    ghost taken: { Self → Option (List ℕ) };

    /// How often a write has failed. It never falls: at the last value of its type it stays.
    ghost faults: { Self → ℕ };

    /// Takes the first bytes of the piece, at least one where there is one, and answers how many. It takes no memory.
    fn write(&mut self, piece: &[u8]) -> Result<usize, SinkFault>
        ensures rises { faults self.old ≤ faults self.new }
        ensures writes { Writes piece.now result (faults self.old) (faults self.new) (taken self.old) (taken self.new) };
}
