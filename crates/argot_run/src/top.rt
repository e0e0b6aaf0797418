// The top call.
ghost use Rattle.argot_run.specs.Ends.{Ends, is_report};
ghost use Rattle.argot_run.specs.Exact.{IsExact};
ghost use Rattle.argot_run.specs.Safe.{IsSafe};
ghost use Rattle.argot_run.specs.declared.status.Status.{Status};
ghost use Rattle.std.specs.Prelude.{◌≡◌, true};

use crate::Status;
use crate::answer::answer_to;
use crate::deliver::deliver;
use argot_io::{Files, Sink};
use argot_text::Texts;
use std::alloc::Global;
use std::thread::Threads;

/// Does all that the program does: reads the words, which are those after the program's own name, lists and reads
/// the folder that they name, and writes the report to `out`, or else one line to `err`. The status says how it ended.
pub fn argot<X: Threads + Sync, F: Files, O: Sink, E: Sink>(
    _rt: &X,
    alloc: Global,
    words: &Texts,
    files: &mut F,
    out: &mut O,
    err: &mut E,
) -> Status
    // The answer that is due to the words and the files, delivered; or a fault of a sink after a proper prefix of its
    // text; or want of memory, with nothing written.
    ensures ends { Ends words.now
        (record { told = F.told files.old; before = F.faults files.old; now = F.faults files.new; last = F.last files.new })
        (record { faults_before = O.faults out.old; faults_now = O.faults out.new; taken_before = O.taken out.old; taken_now = O.taken out.new })
        (record { faults_before = E.faults err.old; faults_now = E.faults err.new; taken_before = E.taken err.old; taken_now = E.taken err.new })
        result }
    // The headline: after a clean end no run of the program leaks, in whatever order its goroutines take turns.
    ensures clean { result ≡ Status.Clean → IsSafe words.now
        (record { told = F.told files.old; before = F.faults files.old; now = F.faults files.new; last = F.last files.new }) }
    // After a report the output took the lines of exactly the program's flows, each once, with their number.
    ensures exact { is_report result ≡ true → IsExact words.now
        (record { told = F.told files.old; before = F.faults files.old; now = F.faults files.new; last = F.last files.new })
        (record { faults_before = O.faults out.old; faults_now = O.faults out.new; taken_before = O.taken out.old; taken_now = O.taken out.new })
        result }
    ensures no_bound { result ≡ Status.Bound → ⊥ }
{
    match answer_to(alloc, words, files) {
        Ok(answer) => deliver(&answer, out, err),
        Err(_) => Status::Memory,
    }
}
