//! The flows of main, in one walk over its steps: each argument of a sink is a flow from each source that it
//! leads to. The flows are kept by source, so that they come in order, and time goes by steps and flows.

ghost use Rattle.std.specs.Prelude.{◌≡◌, ◌+◌, ◌*◌, ◌<◌, ◌≤◌, ◌^◌, [], OnOk, IfOk, length, replicate};
ghost use Rattle.argot_first.specs.Links.{AreDown, AreWithin, Adds, flow_along, flows_along, step_along, AreBuckets};
ghost use Rattle.argot_first.specs.Marks.{all_flows};

use crate::calls::{arguments_of, calls_sink, calls_source};
use crate::found::Flow;
use crate::links::{link_at, link_step};
use argot_first_form::Function;
use argot_plain::first::Kind;
use argot_text::Memory;
use sqlite_items::Items;
use std::alloc::Global;

// The flows into one argument, from each source that its register leads to.
fn push_along(
    buckets: &mut [Items<Flow>],
    nexts: &[usize],
    link: usize,
    base: usize,
    sink: usize,
    argument: usize,
) -> Result<(), Memory>
    requires down { AreDown nexts.now }
    requires within { link ≤ length nexts.now }
    requires number { length nexts.now ≤ length buckets.old }
    requires small { base + length nexts.now < 2 ^ 64 }
    ensures { OnOk result (Adds buckets.old buckets.new (flow_along nexts.now base sink argument link)) }
{
    let mut at = link;
    while at > 0 {
        let source = at - 1;
        let bucket = &mut buckets[source];
        bucket.push(Flow {
            source: base + source,
            sink,
            argument,
        })?;
        at = nexts[source];
    }
    Ok(())
}

fn push_arguments(
    buckets: &mut [Items<Flow>],
    nexts: &[usize],
    heads: &[usize],
    base: usize,
    sink: usize,
    arguments: &[usize],
) -> Result<(), Memory>
    requires down { AreDown nexts.now }
    requires within { AreWithin heads.now (length nexts.now) }
    requires number { length nexts.now ≤ length buckets.old }
    requires small { base + length nexts.now < 2 ^ 64 }
    ensures { OnOk result (Adds buckets.old buckets.new (λ s. flows_along nexts.now heads.now base sink s 0 arguments.now)) }
{
    for (k, register) in arguments.iter().enumerate() {
        push_along(buckets, nexts, link_at(heads, *register), base, sink, k)?;
    }
    Ok(())
}

fn push_step(
    buckets: &mut [Items<Flow>],
    functions: &[Function],
    nexts: &[usize],
    heads: &[usize],
    base: usize,
    sink: usize,
    kind: &Kind,
) -> Result<(), Memory>
    requires down { AreDown nexts.now }
    requires within { AreWithin heads.now (length nexts.now) }
    requires number { length nexts.now ≤ length buckets.old }
    requires small { base + length nexts.now < 2 ^ 64 }
    ensures { OnOk result (Adds buckets.old buckets.new (λ s. step_along functions.now nexts.now heads.now base sink s kind.now)) }
{
    if calls_sink(functions, kind) {
        return push_arguments(buckets, nexts, heads, base, sink, arguments_of(kind));
    }
    Ok(())
}

fn no_flows(alloc: Global, number: usize) -> Result<Vec<Items<Flow>>, Memory>
    ensures { IfOk result (λ buckets. buckets.items ≡ replicate number []) }
{
    let mut buckets = Vec::new(alloc);
    for _ in 0..number {
        buckets.push(Items::new(alloc))?;
    }
    Ok(buckets)
}

fn no_links(alloc: Global, number: usize) -> Result<Vec<usize>, Memory>
    ensures { IfOk result (λ heads. heads.items ≡ replicate number 0) }
{
    let heads = vec![in alloc; 0; number]?;
    Ok(heads)
}

// The flows of each step that calls a source.
fn by_source(
    alloc: Global,
    functions: &[Function],
    base: usize,
    kinds: &[Kind],
) -> Result<Vec<Items<Flow>>, Memory>
    requires { base + 2 * length kinds.now < 2 ^ 64 }
    ensures { IfOk result (λ buckets. AreBuckets functions.now base kinds.now buckets.items) }
{
    let mut buckets = no_flows(alloc, kinds.len())?;
    let mut heads = no_links(alloc, kinds.len())?;
    let mut nexts = Vec::new(alloc);
    for (i, kind) in kinds.iter().enumerate() {
        push_step(
            &mut buckets,
            functions,
            &nexts,
            &heads,
            base,
            base + i,
            kind,
        )?;
        link_step(functions, i, &mut heads, &mut nexts, kind)?;
    }
    Ok(buckets)
}

/// The flows of main, whose step 0 stands at the place `base`.
pub fn flows(
    alloc: Global,
    functions: &[Function],
    base: usize,
    kinds: &[Kind],
) -> Result<Vec<Flow>, Memory>
    requires { base + 2 * length kinds.now < 2 ^ 64 }
    ensures { IfOk result (λ flows. flows.items ≡ all_flows functions.now base kinds.now 0 kinds.now) }
{
    let buckets = by_source(alloc, functions, base, kinds)?;
    let mut flows = Vec::new(alloc);
    for (source, kind) in kinds.iter().enumerate() {
        if calls_source(functions, kind) {
            flows.extend_from_slice(buckets[source].as_slice())?;
        }
    }
    Ok(flows)
}
