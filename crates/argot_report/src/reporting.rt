// The report of a command.
ghost use Rattle.std.specs.Prelude.{◌≡◌, ◌++◌, ◌≤◌, [], length, OnOk, IfOk, IfErr};
ghost use Rattle.argot_report.specs.Counted.{FitsFindings, IsSubject, told};
ghost use Rattle.argot_report.specs.Growing.{TooLong};
ghost use Rattle.argot_report.specs.declared.command.Command.TheVariants as wanted;
ghost use Rattle.argot_report.specs.Report.{counts_text, most_bytes, report_text, total_text};

use crate::command::Command;
use crate::faults::ReportFault;
use crate::listing::{push_escapes, push_flows, push_origins, push_sites};
use crate::subject::Subject;
use crate::writing::test_length;
use argot_facts::Findings;
use argot_plain::{Problem, Program};
use argot_text::{Memory, Out};
use std::alloc::Global;

/// How many flows and escapes there are.
fn push_counts(out: &mut Out, subject: &Subject<'_>) -> Result<(), Memory>
    ensures { OnOk result (out.new ≡ out.old ++ counts_text (told subject.now)) }
{
    out.push_number(subject.findings.flows.len() as u64)?;
    out.push_str(" flows, ")?;
    out.push_number(subject.findings.escapes.len() as u64)?;
    out.push_str(" escapes\n")
}

/// How many there are of a kind.
fn push_total(out: &mut Out, count: usize, of: &str) -> Result<(), Memory>
    ensures { OnOk result (out.new ≡ out.old ++ total_text count of.now) }
{
    out.push_number(count as u64)?;
    out.push_str(of)
}

/// The line of a trial.
fn push_trial(out: &mut Out, subject: &Subject<'_>, count: u32) -> Result<(), Memory>
    ensures { OnOk result (out.new ≡ out.old ++ report_text (told subject.now) (wanted.Trial count)) }
{
    out.push_str("trial ")?;
    out.push_number(u64::from(count))?;
    out.push_str(": ")?;
    push_counts(out, subject)
}

/// The report of `taint`.
fn push_taint(out: &mut Out, subject: &Subject<'_>) -> Result<(), ReportFault>
    requires subject { IsSubject subject.now }
    requires fits { FitsFindings subject.now.program.now subject.now.findings.now }
    ensures ok { OnOk result (out.new ≡ out.old ++ report_text (told subject.now) wanted.Taint) }
    ensures err { IfErr result (TooLong out.old (report_text (told subject.now) wanted.Taint)) }
{
    push_flows(out, subject)?;
    push_escapes(out, subject)?;
    if push_counts(out, subject).is_err() {
        return Err(ReportFault::Memory);
    }
    Ok(())
}

/// The report of `backtrace`.
fn push_backtrace(out: &mut Out, subject: &Subject<'_>) -> Result<(), ReportFault>
    requires subject { IsSubject subject.now }
    requires fits { FitsFindings subject.now.program.now subject.now.findings.now }
    ensures ok { OnOk result (out.new ≡ out.old ++ report_text (told subject.now) wanted.Backtrace) }
    ensures err { IfErr result (TooLong out.old (report_text (told subject.now) wanted.Backtrace)) }
{
    push_origins(out, subject)?;
    if push_total(out, subject.findings.origins.len(), " origins\n").is_err() {
        return Err(ReportFault::Memory);
    }
    Ok(())
}

/// The report of `escape`.
fn push_escape_report(out: &mut Out, subject: &Subject<'_>) -> Result<(), ReportFault>
    ensures ok { OnOk result (out.new ≡ out.old ++ report_text (told subject.now) wanted.Escape) }
    ensures err { IfErr result (TooLong out.old (report_text (told subject.now) wanted.Escape)) }
{
    push_sites(out, subject)?;
    if push_total(out, subject.findings.sites.len(), " escaping objects\n").is_err() {
        return Err(ReportFault::Memory);
    }
    Ok(())
}

/// The report of a command; it may still be too long.
fn push_report(out: &mut Out, subject: &Subject<'_>, command: Command) -> Result<(), ReportFault>
    requires subject { IsSubject subject.now }
    requires fits { FitsFindings subject.now.program.now subject.now.findings.now }
    ensures ok { OnOk result (out.new ≡ out.old ++ report_text (told subject.now) command) }
    ensures err { IfErr result (TooLong out.old (report_text (told subject.now) command)) }
{
    match command {
        Command::Taint => push_taint(out, subject),
        Command::Backtrace => push_backtrace(out, subject),
        Command::Escape => push_escape_report(out, subject),
        Command::Trial { count } => match push_trial(out, subject, count) {
            Ok(()) => Ok(()),
            Err(_) => Err(ReportFault::Memory),
        },
    }
}

/// The report of what is found, in the order in which it is handed in. `Report` exactly where it has more than 67,108,864
/// bytes. What is found fits the program: sources, sinks and points are places of it, and calls too.
pub fn report(
    alloc: Global,
    command: Command,
    program: &Program,
    problems: &Vec<Problem>,
    findings: &Findings,
) -> Result<Out, ReportFault>
    requires { FitsFindings program.now findings.now }
    ensures ok { IfOk result (λ out. out ≡ report_text (record { program = program.now; problems = problems.now.items; found = findings.now }) command) }
    ensures short { IfOk result (λ out. length out ≤ most_bytes) }
    ensures err { IfErr result (TooLong [] (report_text (record { program = program.now; problems = problems.now.items; found = findings.now }) command)) }
{
    let Ok(subject) = Subject::of(alloc, program, problems.as_slice(), findings) else {
        return Err(ReportFault::Memory);
    };
    let mut out = Out::new(alloc);
    push_report(&mut out, &subject, command)?;
    test_length(&out)?;
    Ok(out)
}
