// The flows of a problem.
ghost use Rattle.std.specs.Prelude.{◌≡◌, ◌<◌, IfOk, length};
ghost use Rattle.argot_plain.specs.Fitting.{Fits};
ghost use Rattle.argot_plain.specs.WellFormed.{WellFormed};
ghost use Rattle.argot_facts.specs.Exact.{ArePoints};
ghost use Rattle.argot_facts.specs.Graphs.{IsGraphOf};
ghost use Rattle.argot_facts.specs.OneProblem.{AreFlowsOf};
ghost use Rattle.argot_facts.specs.Summed.{AreSummaries};
ghost use Rattle.argot_flow_ends.specs.Linking.{AreLinks};
ghost use Rattle.argot_flow_ends.specs.Roles.{AreRoles};

use crate::ends::Asked;
use crate::links::{Links, add_all};
use crate::lists::{ends_of, sources_of};
use crate::order::ordered;
use crate::roles::roles_of;
use argot_facts::{Flow, Graph, Points, Summaries};
use argot_flow::Reach;
use argot_plain::{Problem, Program};
use argot_text::Memory;
use std::alloc::Global;
use std::thread::Threads;

/// Flows by links, in the order in which they are found; some may stand twice.
fn linked(
    alloc: Global,
    asked: &Asked<'_>,
    graph: &Graph,
    summaries: &Summaries,
) -> Result<Vec<Flow>, Memory>
    requires points { ArePoints asked.now.program.now asked.now.points.now }
    requires roles { AreRoles asked.now.program.now asked.now.problem.now asked.now.roles.now }
    requires well { WellFormed asked.now.program.now }
    requires graph { IsGraphOf asked.now.program.now asked.now.problem.now graph.now }
    requires summaries { AreSummaries graph.now.edges summaries.now }
    ensures { IfOk result (λ v. AreLinks asked.now.program.now asked.now.problem.now v.items) }
{
    let nodes = graph.nodes().as_slice();
    if nodes.len() >= 4294967295 {
        return Err(Memory);
    }
    let sources = sources_of(alloc, asked, nodes)?;
    let ends = ends_of(alloc, asked, nodes)?;
    let links = Links {
        graph,
        problem: asked.problem.number,
        ends: &ends,
    };
    let mut reach = Reach::new(alloc, graph, summaries)?;
    let mut flows = Vec::new(alloc);
    add_all(&links, &mut reach, &sources, &mut flows)?;
    Ok(flows)
}

/// The flows of a problem, in order: from which sources data comes to which arguments of sinks, along lists of edges in which
/// calls and returns match (Reps, Horwitz and Sagiv 1995). Memory comes where there is none for the tables or the flows.
pub fn flows(
    rt: &(impl Threads + Sync),
    alloc: Global,
    program: &Program,
    points: &Points,
    graph: &Graph,
    summaries: &Summaries,
    problem: &Problem,
    workers: u16,
) -> Result<Vec<Flow>, Memory>
    requires one { workers ≡ 1 }
    requires fits { Fits program.now problem.now }
    requires points { ArePoints program.now points.now }
    requires graph { IsGraphOf program.now problem.now graph.now }
    requires summaries { AreSummaries graph.now.edges summaries.now }
    ensures flows { IfOk result (λ v. AreFlowsOf program.now problem.now v.items) }
{
    let _one = workers;
    let _places = program.len();
    let roles = roles_of(alloc, program, problem)?;
    let asked = Asked {
        program,
        points,
        problem,
        roles: &roles,
    };
    let mut found = linked(alloc, &asked, graph, summaries)?;
    ordered(rt, alloc, &mut found)
}
