// The nodes that flows begin at and end in, as lists by number.
ghost use Rattle.std.specs.Prelude.{◌≡◌, ◌<◌, ℕ, IfOk, Some, length, slice_get, true, false};
ghost use Rattle.argot_plain.specs.WellFormed.{WellFormed};
ghost use Rattle.argot_facts.specs.Exact.{ArePoints};
ghost use Rattle.argot_facts.specs.Graphs.{AreNodes};
ghost use Rattle.argot_flow_ends.specs.Ends.{AreSources, AreArguments};
ghost use Rattle.argot_flow_ends.specs.Roles.{AreRoles};

use crate::ends::{Asked, argument_of, is_source};
use argot_facts::Node;
use argot_text::Memory;
use std::alloc::Global;

/// A node of an argument of a sink.
#[derive(Clone, Copy)]
pub(crate) struct End {
    /// The node's number.
    pub node: u32,
    /// The argument's number.
    pub arg: u32,
}

/// The numbers of the nodes of source places.
pub(crate) fn sources_of(
    alloc: Global,
    asked: &Asked<'_>,
    nodes: &[Node],
) -> Result<Vec<u32>, Memory>
    requires points { ArePoints asked.now.program.now asked.now.points.now }
    requires roles { AreRoles asked.now.program.now asked.now.problem.now asked.now.roles.now }
    requires well { WellFormed asked.now.program.now }
    requires nodes { AreNodes asked.now.program.now nodes.now }
    requires few { length nodes.now < 4294967295 }
    ensures { IfOk result (λ v. AreSources asked.now.program.now asked.now.problem.now nodes.now v.items) }
{
    let mut sources = Vec::new(alloc);
    for n in 0..nodes.len() {
        if is_source(asked, nodes[n]) {
            sources.push(n as u32)?;
        }
    }
    Ok(sources)
}

/// The nodes of arguments of sinks.
pub(crate) fn ends_of(alloc: Global, asked: &Asked<'_>, nodes: &[Node]) -> Result<Vec<End>, Memory>
    requires points { ArePoints asked.now.program.now asked.now.points.now }
    requires roles { AreRoles asked.now.program.now asked.now.problem.now asked.now.roles.now }
    requires well { WellFormed asked.now.program.now }
    requires nodes { AreNodes asked.now.program.now nodes.now }
    requires few { length nodes.now < 4294967295 }
    ensures { IfOk result (λ v. AreArguments asked.now.program.now asked.now.problem.now nodes.now v.items) }
{
    let mut ends = Vec::new(alloc);
    for n in 0..nodes.len() {
        if let Some(arg) = argument_of(asked, nodes[n]) {
            ends.push(End {
                node: n as u32,
                arg,
            })?;
        }
    }
    Ok(ends)
}
