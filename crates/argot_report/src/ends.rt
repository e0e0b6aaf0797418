// The names of sources, sinks and points.
ghost use Rattle.std.specs.Prelude.{◌≡◌, ◌++◌, ◌<◌, Some, length, slice_index_or, OnOk};
ghost use Rattle.std.specs.List.{find};
ghost use Rattle.argot_plain.specs.Counts.{is_left_out, calls_by_number, is_static};
ghost use Rattle.argot_report.specs.Counted.{AreMarks, IsNaming, IsSubject, is_set, told};
ghost use Rattle.argot_report.specs.Names.{counted_text, source_text};
ghost use Rattle.argot_report.specs.Report.{call_text, from_source};

use crate::counted::is_wrapper;
use crate::naming::Naming;
use crate::owner::function_of;
use crate::subject::Subject;
use crate::writing::push_place;
use argot_plain::{Callee, Kind, Program};
use argot_text::{Memory, Out};

fn is_static(callee: &Callee) -> bool
    ensures { result ≡ is_static callee.now }
{
    match callee {
        Callee::Static(_) => true,
        Callee::Value(_) | Callee::Method(..) => false,
    }
}

/// Whether the instruction calls a function by its number.
fn calls_by_number(kind: &Kind) -> bool
    ensures { result ≡ calls_by_number (Some kind.now) }
{
    match kind {
        Kind::Call { callee, .. } | Kind::Go { callee, .. } | Kind::Defer { callee, .. } => {
            is_static(callee)
        }
        _ => false,
    }
}

/// Whether the place is the call of a wrapper, which counts as nothing.
fn is_left_out(program: &Program, place: u32) -> bool
    requires { place < length program.now.instrs }
    ensures { result ≡ is_left_out program.now place }
{
    let by_number = calls_by_number(program.kind(place as usize));
    let wrapper = is_wrapper(&program.function(function_of(program, place)).role);
    by_number && wrapper
}

/// The first of the targets that is marked.
fn first_marked(marks: &[bool], targets: &[u32]) -> Option<u32>
    ensures { result ≡ find (is_set marks.now) targets.now }
{
    for h in targets {
        if let Some(true) = marks.get(*h as usize) {
            return Some(*h);
        }
    }
    None
}

/// The name of the first target of the place that counts as one of these functions, which are marked.
fn push_counted(
    out: &mut Out,
    subject: &Subject<'_>,
    functions: &[u32],
    marks: &[bool],
    place: u32,
) -> Result<(), Memory>
    requires subject { IsSubject subject.now }
    requires marks { AreMarks subject.now.program.now functions.now marks.now }
    requires place { place < length subject.now.program.now.instrs }
    ensures { OnOk result (out.new ≡ out.old ++ counted_text subject.now.program.now subject.now.findings.now.targets functions.now place) }
{
    let program = subject.program;
    if is_left_out(program, place) {
        return Ok(());
    }
    match first_marked(marks, subject.targets.run(place)) {
        Some(h) if (h as usize) < program.function_count() => {
            out.push_str(program.function(h as usize).name.as_str())
        }
        _ => Ok(()),
    }
}

/// One more than the number of the entry that names the place, 0 where none does.
fn entry_of(naming: &Naming<'_>, place: u32) -> usize
    ensures { result ≡ slice_index_or naming.now.places.items place 0 }
{
    match naming.places.get(place as usize) {
        Some(number) => *number as usize,
        None => 0,
    }
}

/// The name of the source at the place.
fn push_source(
    out: &mut Out,
    subject: &Subject<'_>,
    naming: &Naming<'_>,
    place: u32,
) -> Result<(), Memory>
    requires subject { IsSubject subject.now }
    requires naming { IsNaming subject.now.program.now naming.now }
    requires place { place < length subject.now.program.now.instrs }
    ensures { OnOk result (out.new ≡ out.old ++ source_text subject.now.program.now subject.now.findings.now.targets naming.now.problem.now place) }
{
    let problem = naming.problem;
    let number = entry_of(naming, place);
    if number == 0 {
        return push_counted(
            out,
            subject,
            problem.sources.as_slice(),
            &naming.sources,
            place,
        );
    }
    match problem.source_places.as_slice().get(number - 1) {
        Some(entry) => out.push_str(entry.1.as_str()),
        None => push_counted(
            out,
            subject,
            problem.sources.as_slice(),
            &naming.sources,
            place,
        ),
    }
}

/// `POS SOURCE -> `.
pub(crate) fn push_from(
    out: &mut Out,
    subject: &Subject<'_>,
    naming: &Naming<'_>,
    place: u32,
) -> Result<(), Memory>
    requires subject { IsSubject subject.now }
    requires naming { IsNaming subject.now.program.now naming.now }
    requires place { place < length subject.now.program.now.instrs }
    ensures { OnOk result (out.new ≡ out.old ++ from_source (told subject.now) naming.now.problem.now place) }
{
    push_place(out, subject.program, place)?;
    out.push_str(" ")?;
    push_source(out, subject, naming, place)?;
    out.push_str(" -> ")
}

/// `POS SINK`.
pub(crate) fn push_sink(
    out: &mut Out,
    subject: &Subject<'_>,
    naming: &Naming<'_>,
    place: u32,
) -> Result<(), Memory>
    requires subject { IsSubject subject.now }
    requires naming { IsNaming subject.now.program.now naming.now }
    requires place { place < length subject.now.program.now.instrs }
    ensures { OnOk result (out.new ≡ out.old ++ call_text (told subject.now) naming.now.problem.now.sinks place) }
{
    push_place(out, subject.program, place)?;
    out.push_str(" ")?;
    push_counted(
        out,
        subject,
        naming.problem.sinks.as_slice(),
        &naming.sinks,
        place,
    )
}

/// `POS POINT`.
pub(crate) fn push_point(
    out: &mut Out,
    subject: &Subject<'_>,
    naming: &Naming<'_>,
    place: u32,
) -> Result<(), Memory>
    requires subject { IsSubject subject.now }
    requires naming { IsNaming subject.now.program.now naming.now }
    requires place { place < length subject.now.program.now.instrs }
    ensures { OnOk result (out.new ≡ out.old ++ call_text (told subject.now) naming.now.problem.now.points place) }
{
    push_place(out, subject.program, place)?;
    out.push_str(" ")?;
    push_counted(
        out,
        subject,
        naming.problem.points.as_slice(),
        &naming.points,
        place,
    )
}
