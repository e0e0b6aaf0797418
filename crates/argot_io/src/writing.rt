// A whole text into a sink, piece by piece.
ghost use Rattle.argot_io.specs.Taken.{WritesAll};

use crate::{Sink, SinkFault};

/// Writes all the bytes, and no empty piece. After a fault the sink took a proper prefix of them.
pub fn write_all<O: Sink>(out: &mut O, bytes: &[u8]) -> Result<(), SinkFault>
    ensures { WritesAll bytes.now result (O.faults out.old) (O.faults out.new) (O.taken out.old) (O.taken out.new) }
{
    let mut written = 0;
    while written < bytes.len() {
        written += out.write(&bytes[written..])?;
    }
    Ok(())
}
