// The line of a finding.
ghost use Rattle.std.specs.Prelude.{◌≡◌, ◌++◌, OnOk};
ghost use Rattle.argot_report.specs.Counted.{HasEscape, HasFlow, HasOrigin, IsNaming, IsSubject, told};
ghost use Rattle.argot_report.specs.Report.{escape_line, escape_text, flow_line, flow_text, head_text, hop_line, node_text, origin_line, origin_text, site_line, step_line, word};

use crate::ends::{push_from, push_point, push_sink};
use crate::naming::Naming;
use crate::subject::Subject;
use crate::writing::{push_argument, push_function, push_inside, push_place, push_site};
use argot_facts::{EscapePair, Flow, Hop, HopKind, Origin};
use argot_plain::{Problem, Program};
use argot_text::{Memory, Out};

fn word(kind: HopKind) -> &'static str
    ensures { result.now ≡ word kind }
{
    match kind {
        HopKind::Start => "start",
        HopKind::Plain => "plain",
        HopKind::Call => "call",
        HopKind::Return => "return",
        HopKind::Reset => "reset",
    }
}

/// `  WORD POS FUNCTION`.
fn push_step(out: &mut Out, program: &Program, kind: HopKind, place: u32) -> Result<(), Memory>
    ensures { OnOk result (out.new ≡ out.old ++ step_line program.now kind place) }
{
    out.push_str("  ")?;
    out.push_str(word(kind))?;
    out.push_str(" ")?;
    push_place(out, program, place)?;
    out.push_str(" ")?;
    push_function(out, program, place)?;
    out.push_str("\n")
}

/// The line of a node of a trace.
pub(crate) fn push_hop(out: &mut Out, subject: &Subject<'_>, hop: Hop) -> Result<(), Memory>
    ensures { OnOk result (out.new ≡ out.old ++ hop_line (told subject.now) hop) }
{
    match subject.findings.nodes.as_slice().get(hop.node as usize) {
        Some(node) => push_step(out, subject.program, hop.kind, node.place),
        None => Ok(()),
    }
}

/// `KIND PROBLEM: `.
fn push_head(out: &mut Out, kind: &str, problem: &Problem) -> Result<(), Memory>
    ensures { OnOk result (out.new ≡ out.old ++ head_text kind.now problem.now) }
{
    out.push_str(kind)?;
    out.push_str(problem.name.as_str())?;
    out.push_str(": ")
}

/// `flow PROBLEM: POS SOURCE -> POS SINK arg K`.
fn push_flow_of(
    out: &mut Out,
    subject: &Subject<'_>,
    naming: &Naming<'_>,
    flow: &Flow,
) -> Result<(), Memory>
    requires subject { IsSubject subject.now }
    requires naming { IsNaming subject.now.program.now naming.now }
    requires flow { HasFlow subject.now.program.now flow.now }
    ensures { OnOk result (out.new ≡ out.old ++ flow_text (told subject.now) flow.now naming.now.problem.now) }
{
    push_head(out, "flow ", naming.problem)?;
    push_from(out, subject, naming, flow.source)?;
    push_sink(out, subject, naming, flow.sink)?;
    push_argument(out, flow.arg)
}

/// The line of a flow.
pub(crate) fn push_flow(out: &mut Out, subject: &Subject<'_>, flow: &Flow) -> Result<(), Memory>
    requires subject { IsSubject subject.now }
    requires flow { HasFlow subject.now.program.now flow.now }
    ensures { OnOk result (out.new ≡ out.old ++ flow_line (told subject.now) flow.now) }
{
    match subject.namings.get(flow.problem as usize) {
        Some(naming) => push_flow_of(out, subject, naming, flow),
        None => Ok(()),
    }
}

/// `escape PROBLEM: POS SOURCE -> ` and the site.
fn push_escape_of(
    out: &mut Out,
    subject: &Subject<'_>,
    naming: &Naming<'_>,
    escape: &EscapePair,
) -> Result<(), Memory>
    requires subject { IsSubject subject.now }
    requires naming { IsNaming subject.now.program.now naming.now }
    requires escape { HasEscape subject.now.program.now escape.now }
    ensures { OnOk result (out.new ≡ out.old ++ escape_text (told subject.now) escape.now naming.now.problem.now) }
{
    push_head(out, "escape ", naming.problem)?;
    push_from(out, subject, naming, escape.source)?;
    push_site(out, subject.program, escape.site)?;
    out.push_str("\n")
}

/// The line of an escape.
pub(crate) fn push_escape(
    out: &mut Out,
    subject: &Subject<'_>,
    escape: &EscapePair,
) -> Result<(), Memory>
    requires subject { IsSubject subject.now }
    requires escape { HasEscape subject.now.program.now escape.now }
    ensures { OnOk result (out.new ≡ out.old ++ escape_line (told subject.now) escape.now) }
{
    match subject.namings.get(escape.problem as usize) {
        Some(naming) => push_escape_of(out, subject, naming, escape),
        None => Ok(()),
    }
}

/// Where the node of the number stands.
fn push_node(out: &mut Out, subject: &Subject<'_>, number: u32) -> Result<(), Memory>
    ensures { OnOk result (out.new ≡ out.old ++ node_text (told subject.now) number) }
{
    match subject.findings.nodes.as_slice().get(number as usize) {
        Some(node) => push_inside(out, subject.program, node.place),
        None => Ok(()),
    }
}

/// `origin PROBLEM: POS in FUNCTION -> POS POINT arg K`.
fn push_origin_of(
    out: &mut Out,
    subject: &Subject<'_>,
    naming: &Naming<'_>,
    origin: &Origin,
) -> Result<(), Memory>
    requires subject { IsSubject subject.now }
    requires naming { IsNaming subject.now.program.now naming.now }
    requires origin { HasOrigin subject.now.program.now origin.now }
    ensures { OnOk result (out.new ≡ out.old ++ origin_text (told subject.now) origin.now naming.now.problem.now) }
{
    push_head(out, "origin ", naming.problem)?;
    push_node(out, subject, origin.node)?;
    out.push_str(" -> ")?;
    push_point(out, subject, naming, origin.point)?;
    push_argument(out, origin.arg)
}

/// The line of an origin.
pub(crate) fn push_origin(
    out: &mut Out,
    subject: &Subject<'_>,
    origin: &Origin,
) -> Result<(), Memory>
    requires subject { IsSubject subject.now }
    requires origin { HasOrigin subject.now.program.now origin.now }
    ensures { OnOk result (out.new ≡ out.old ++ origin_line (told subject.now) origin.now) }
{
    match subject.namings.get(origin.problem as usize) {
        Some(naming) => push_origin_of(out, subject, naming, origin),
        None => Ok(()),
    }
}

/// The line of a site.
pub(crate) fn push_escaping(out: &mut Out, subject: &Subject<'_>, site: u32) -> Result<(), Memory>
    ensures { OnOk result (out.new ≡ out.old ++ site_line (told subject.now) site) }
{
    out.push_str("escape ")?;
    push_site(out, subject.program, site)?;
    out.push_str("\n")
}
