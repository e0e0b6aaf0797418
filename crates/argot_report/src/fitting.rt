// Whether findings fit a program.
ghost use Rattle.std.specs.Prelude.{◌<◌, IsTrue};
ghost use Rattle.argot_links.specs.Runs.{AreHeaded};
ghost use Rattle.argot_report.specs.Counted.{FitsFindings, HaveEscapes, HaveFlows, HaveOrigins};

use argot_facts::{EscapePair, Findings, Flow, Origin, Trace};
use argot_plain::Program;

/// Whether each call is one of so many places.
fn calls_fit(places: usize, targets: &[(u32, u32)]) -> bool
    ensures yes { IsTrue result → AreHeaded places targets.now }
    ensures no { AreHeaded places targets.now → IsTrue result }
{
    for k in 0..targets.len() {
        if targets[k].0 as usize >= places {
            return false;
        }
    }
    true
}

fn flow_fits(places: usize, flow: &Flow) -> bool
    ensures yes { IsTrue result → (flow.now.source < places) × (flow.now.sink < places) }
    ensures no { (flow.now.source < places) × (flow.now.sink < places) → IsTrue result }
{
    (flow.source as usize) < places && (flow.sink as usize) < places
}

/// Whether each flow has its source and its sink among so many places.
fn flows_fit(places: usize, flows: &[(Flow, Trace)]) -> bool
    ensures yes { IsTrue result → HaveFlows places flows.now }
    ensures no { HaveFlows places flows.now → IsTrue result }
{
    for k in 0..flows.len() {
        if !flow_fits(places, &flows[k].0) {
            return false;
        }
    }
    true
}

/// Whether each escape has its source among so many places.
fn escapes_fit(places: usize, escapes: &[EscapePair]) -> bool
    ensures yes { IsTrue result → HaveEscapes places escapes.now }
    ensures no { HaveEscapes places escapes.now → IsTrue result }
{
    for k in 0..escapes.len() {
        if escapes[k].source as usize >= places {
            return false;
        }
    }
    true
}

/// Whether each origin has its point among so many places.
fn origins_fit(places: usize, origins: &[(Origin, Trace)]) -> bool
    ensures yes { IsTrue result → HaveOrigins places origins.now }
    ensures no { HaveOrigins places origins.now → IsTrue result }
{
    for k in 0..origins.len() {
        if origins[k].0.point as usize >= places {
            return false;
        }
    }
    true
}

/// Whether what is found fits the program, as `report` asks.
pub fn fits(program: &Program, findings: &Findings) -> bool
    ensures yes { IsTrue result → FitsFindings program.now findings.now }
    ensures no { FitsFindings program.now findings.now → IsTrue result }
{
    let places = program.len();
    findings.targets.len() < 4294967296
        && calls_fit(places, findings.targets.as_slice())
        && flows_fit(places, findings.flows.as_slice())
        && escapes_fit(places, findings.escapes.as_slice())
        && origins_fit(places, findings.origins.as_slice())
}
