// All lines of a kind.
ghost use Rattle.std.specs.Prelude.{◌≡◌, ◌++◌, OnOk, IfErr};
ghost use Rattle.std.specs.List.{flat_map};
ghost use Rattle.argot_report.specs.Counted.{FitsFindings, HasEscape, HasFlow, HasOrigin, IsSubject, told};
ghost use Rattle.argot_report.specs.Growing.{TooLong};
ghost use Rattle.argot_report.specs.Report.{escape_line, flow_lines, hop_line, origin_lines, site_line};

use crate::faults::ReportFault;
use crate::lines::{push_escape, push_escaping, push_flow, push_hop, push_origin};
use crate::subject::Subject;
use crate::writing::test_length;
use argot_facts::{EscapePair, Flow, Hop, Origin, Trace};
use argot_text::Out;

/// A node of a trace, if the report stays short enough.
fn push_short_hop(out: &mut Out, subject: &Subject<'_>, hop: Hop) -> Result<(), ReportFault>
    ensures ok { OnOk result (out.new ≡ out.old ++ hop_line (told subject.now) hop) }
    ensures err { IfErr result (TooLong out.old (hop_line (told subject.now) hop)) }
{
    if push_hop(out, subject, hop).is_err() {
        return Err(ReportFault::Memory);
    }
    test_length(out)
}

/// The lines of a trace.
fn push_trace(out: &mut Out, subject: &Subject<'_>, trace: &Trace) -> Result<(), ReportFault>
    ensures ok { OnOk result (out.new ≡ out.old ++ flat_map (hop_line (told subject.now)) trace.now) }
    ensures err { IfErr result (TooLong out.old (flat_map (hop_line (told subject.now)) trace.now)) }
{
    for hop in trace.as_slice() {
        if let Err(fault) = push_short_hop(out, subject, *hop) {
            return Err(fault);
        }
    }
    Ok(())
}

/// A flow with its trace.
fn push_traced_flow(
    out: &mut Out,
    subject: &Subject<'_>,
    flow: &Flow,
    trace: &Trace,
) -> Result<(), ReportFault>
    requires subject { IsSubject subject.now }
    requires flow { HasFlow subject.now.program.now flow.now }
    ensures ok { OnOk result (out.new ≡ out.old ++ flow_lines (told subject.now) (flow.now, trace.now)) }
    ensures err { IfErr result (TooLong out.old (flow_lines (told subject.now) (flow.now, trace.now))) }
{
    if push_flow(out, subject, flow).is_err() {
        return Err(ReportFault::Memory);
    }
    test_length(out)?;
    push_trace(out, subject, trace)
}

/// An origin with its trace.
fn push_traced_origin(
    out: &mut Out,
    subject: &Subject<'_>,
    origin: &Origin,
    trace: &Trace,
) -> Result<(), ReportFault>
    requires subject { IsSubject subject.now }
    requires origin { HasOrigin subject.now.program.now origin.now }
    ensures ok { OnOk result (out.new ≡ out.old ++ origin_lines (told subject.now) (origin.now, trace.now)) }
    ensures err { IfErr result (TooLong out.old (origin_lines (told subject.now) (origin.now, trace.now))) }
{
    if push_origin(out, subject, origin).is_err() {
        return Err(ReportFault::Memory);
    }
    test_length(out)?;
    push_trace(out, subject, trace)
}

/// The flows.
pub(crate) fn push_flows(out: &mut Out, subject: &Subject<'_>) -> Result<(), ReportFault>
    requires subject { IsSubject subject.now }
    requires fits { FitsFindings subject.now.program.now subject.now.findings.now }
    ensures ok { OnOk result (out.new ≡ out.old ++ flat_map (flow_lines (told subject.now)) subject.now.findings.now.flows) }
    ensures err { IfErr result (TooLong out.old (flat_map (flow_lines (told subject.now)) subject.now.findings.now.flows)) }
{
    for (flow, trace) in subject.findings.flows.as_slice() {
        if let Err(fault) = push_traced_flow(out, subject, flow, trace) {
            return Err(fault);
        }
    }
    Ok(())
}

/// An escape, if the report stays short enough.
fn push_short_escape(
    out: &mut Out,
    subject: &Subject<'_>,
    escape: &EscapePair,
) -> Result<(), ReportFault>
    requires subject { IsSubject subject.now }
    requires escape { HasEscape subject.now.program.now escape.now }
    ensures ok { OnOk result (out.new ≡ out.old ++ escape_line (told subject.now) escape.now) }
    ensures err { IfErr result (TooLong out.old (escape_line (told subject.now) escape.now)) }
{
    if push_escape(out, subject, escape).is_err() {
        return Err(ReportFault::Memory);
    }
    test_length(out)
}

/// The escapes.
pub(crate) fn push_escapes(out: &mut Out, subject: &Subject<'_>) -> Result<(), ReportFault>
    requires subject { IsSubject subject.now }
    requires fits { FitsFindings subject.now.program.now subject.now.findings.now }
    ensures ok { OnOk result (out.new ≡ out.old ++ flat_map (escape_line (told subject.now)) subject.now.findings.now.escapes) }
    ensures err { IfErr result (TooLong out.old (flat_map (escape_line (told subject.now)) subject.now.findings.now.escapes)) }
{
    for escape in subject.findings.escapes.as_slice() {
        if let Err(fault) = push_short_escape(out, subject, escape) {
            return Err(fault);
        }
    }
    Ok(())
}

/// The origins.
pub(crate) fn push_origins(out: &mut Out, subject: &Subject<'_>) -> Result<(), ReportFault>
    requires subject { IsSubject subject.now }
    requires fits { FitsFindings subject.now.program.now subject.now.findings.now }
    ensures ok { OnOk result (out.new ≡ out.old ++ flat_map (origin_lines (told subject.now)) subject.now.findings.now.origins) }
    ensures err { IfErr result (TooLong out.old (flat_map (origin_lines (told subject.now)) subject.now.findings.now.origins)) }
{
    for (origin, trace) in subject.findings.origins.as_slice() {
        if let Err(fault) = push_traced_origin(out, subject, origin, trace) {
            return Err(fault);
        }
    }
    Ok(())
}

/// A site, if the report stays short enough.
fn push_short_site(out: &mut Out, subject: &Subject<'_>, site: u32) -> Result<(), ReportFault>
    ensures ok { OnOk result (out.new ≡ out.old ++ site_line (told subject.now) site) }
    ensures err { IfErr result (TooLong out.old (site_line (told subject.now) site)) }
{
    if push_escaping(out, subject, site).is_err() {
        return Err(ReportFault::Memory);
    }
    test_length(out)
}

/// The sites.
pub(crate) fn push_sites(out: &mut Out, subject: &Subject<'_>) -> Result<(), ReportFault>
    ensures ok { OnOk result (out.new ≡ out.old ++ flat_map (site_line (told subject.now)) subject.now.findings.now.sites) }
    ensures err { IfErr result (TooLong out.old (flat_map (site_line (told subject.now)) subject.now.findings.now.sites)) }
{
    for site in subject.findings.sites.as_slice() {
        if let Err(fault) = push_short_site(out, subject, *site) {
            return Err(fault);
        }
    }
    Ok(())
}
