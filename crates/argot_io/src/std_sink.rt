// A stream of the process as a sink. It tells nothing of what it took.
ghost use Rattle.std.specs.Prelude.{None};

use crate::{Sink, SinkFault};
use std::io::Write;

/// A sink over a stream, which counts each write that fails or takes nothing.
#[derive(Drop)]
pub struct StdSink<W: Write + Drop> {
    stream: W,
    faults: u64,
}

impl<W: Write + Drop> StdSink<W> {
    /// A sink over the stream. It takes no memory.
    pub fn new(stream: W) -> StdSink<W> {
        StdSink { stream, faults: 0 }
    }
}

impl<W: Write + Drop> Sink for StdSink<W> {
    ghost taken = { λ _. None };

    ghost faults = { λ it. it.faults };

    fn write(&mut self, piece: &[u8]) -> Result<usize, SinkFault> {
        if piece.is_empty() {
            return Ok(0);
        }
        match self.stream.write(piece) {
            Ok(n) if n > 0 => Ok(n),
            _ => {
                self.faults = self.faults.saturating_add(1);
                Err(SinkFault::Failed)
            }
        }
    }
}
