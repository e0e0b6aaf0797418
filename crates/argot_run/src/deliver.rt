// The text of an answer, written where it belongs.
ghost use Rattle.std.specs.Prelude.{◌≡◌};
ghost use Rattle.argot_run.specs.Ends.{Delivers, is_report};

use crate::Status;
use crate::answer::Answer;
use argot_io::{Sink, write_all};

/// Writes the text of the answer, and tells how the program ends.
pub fn deliver<O: Sink, E: Sink>(answer: &Answer, out: &mut O, err: &mut E) -> Status
    ensures { Delivers answer.now
        (record { faults_before = O.faults out.old; faults_now = O.faults out.new; taken_before = O.taken out.old; taken_now = O.taken out.new })
        (record { faults_before = E.faults err.old; faults_now = E.faults err.new; taken_before = E.taken err.old; taken_now = E.taken err.new })
        result }
{
    let text = answer.text.bytes();
    if is_report(answer.status) {
        match write_all(out, text) {
            Ok(()) => answer.status,
            Err(_) => Status::WriteFault,
        }
    } else {
        match write_all(err, text) {
            Ok(()) => answer.status,
            Err(_) => Status::WriteFault,
        }
    }
}

fn is_report(status: Status) -> bool
    ensures { result ≡ is_report status }
{
    matches!(status, Status::Clean | Status::Found)
}
