// A sink in memory, which fails where it is told to.
ghost use Rattle.std.specs.Prelude.{◌≡◌, ◌++◌, ◌<◌, ◌≤◌, ◌↔◌, [], Some, take, IfOk, OnErr, IsErr};
ghost use Rattle.argot_io.specs.Taken.{Writes};
ghost use Rattle.argot_io.specs.Memory.{MustFail, bytes_taken, counted};

use crate::numbers::is_among;
use crate::{Sink, SinkFault};
use argot_text::Memory;
use std::alloc::Global;
use std::marker::Model;

/// A sink that takes at most `most` bytes a write and `room` bytes in all, and fails at the writes whose numbers,
/// counted from 1, it was handed.
#[derive(Debug, Drop)]
pub struct MemSink {
    taken: Vec<u8>,
    room: u32,
    most: u32,
    failing: Vec<u32>,
    writes: u64,
    faults: u64,
}

impl Model for MemSink {
    ghost use Rattle.argot_io.specs.Memory.{SinkInMemory};

    ghost Value = { SinkInMemory };

    ghost use Rattle.argot_io.specs.MemSinkFields.{sink_in_memory, HasRoom};

    ghost view = { sink_in_memory };

    ghost invariant = { HasRoom };
}

impl MemSink {
    /// An empty sink with room for `room` bytes, which it reserves.
    pub fn new(alloc: Global, room: u32, most: u32, failing: Vec<u32>) -> Result<MemSink, Memory>
        requires { 0 < most }
        ensures { IfOk result (λ sink. sink ≡ record { taken = []; room = room; most = most; failing = failing.items; writes = 0; faults = 0 }) }
    {
        let taken = Vec::with_capacity(alloc, room as usize)?;
        Ok(MemSink {
            taken,
            room,
            most,
            failing,
            writes: 0,
            faults: 0,
        })
    }

    /// The bytes taken so far.
    pub fn bytes(&self) -> &[u8]
        ensures { result.now ≡ self.now.taken }
    {
        self.taken.as_slice()
    }

    /// How often a write has failed.
    pub fn faults(&self) -> u64
        ensures { result ≡ self.now.faults }
    {
        self.faults
    }
}

impl Sink for MemSink {
    ghost taken = { λ it. Some it.taken };

    ghost faults = { λ it. it.faults };

    fn write(&mut self, piece: &[u8]) -> Result<usize, SinkFault>
        ensures rises { self.old.faults ≤ self.new.faults }
        ensures writes { Writes piece.now result self.old.faults self.new.faults (Some self.old.taken) (Some self.new.taken) }
        ensures failed { IsErr result ↔ MustFail self.old piece.now }
        ensures took { IfOk result (λ n. n ≡ bytes_taken self.old piece.now) }
        ensures ok { IfOk result (λ n. self.new ≡ record self.old { taken = self.old.taken ++ take n piece.now; writes = counted self.old.writes }) }
        ensures err { OnErr result (self.new ≡ record self.old { writes = counted self.old.writes; faults = counted self.old.faults }) }
    {
        let number = self.writes.saturating_add(1);
        self.writes = number;
        let left = self.room as usize - self.taken.len();
        let named = is_among(self.failing.as_slice(), number);
        if !piece.is_empty() && (named || left == 0) {
            self.faults = self.faults.saturating_add(1);
            return Err(SinkFault::Failed);
        }
        let count = piece.len().min(self.most as usize).min(left);
        match self.taken.extend_from_slice(&piece[..count]) {
            Ok(()) => Ok(count),
            Err(_) => unreachable!(),
        }
    }
}
