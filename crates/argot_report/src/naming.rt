// What a report looks up of a problem.
ghost use Rattle.std.specs.Prelude.{◌≡◌, slice_set, IfOk};
ghost use Rattle.argot_report.specs.Counted.{AreNamings, ArePlaces, IsNaming};

use crate::counted::marks_of;
use argot_plain::{Problem, Program};
use argot_text::{Memory, Text};
use std::alloc::Global;

/// A problem with tables: by function whether it counts as a source, a sink or a point, and by place which entry names it.
#[derive(Drop)]
pub(crate) struct Naming<'a> {
    pub problem: &'a Problem,
    pub sources: Vec<bool>,
    pub sinks: Vec<bool>,
    pub points: Vec<bool>,
    pub places: Vec<u32>,
}

/// Puts the number at the place, where there is such a one.
fn put(table: &mut Vec<u32>, place: u32, number: u32)
    ensures { table.new.items ≡ slice_set table.old.items place number }
{
    let at = place as usize;
    if at < table.len() {
        table[at] = number;
    }
}

/// By place one more than the number of the first entry that names it. No table where there are no entries.
fn places_of(alloc: Global, places: usize, entries: &[(u32, Text)]) -> Result<Vec<u32>, Memory>
    ensures { IfOk result (λ v. ArePlaces places entries.now v.items) }
{
    let count = entries.len();
    if count == 0 {
        return Ok(Vec::new(alloc));
    }
    if count > 4294967295 {
        return Err(Memory);
    }
    let mut table = vec![in alloc; 0u32; places]?;
    for k in 0..count {
        let number = count - k;
        put(&mut table, entries[number - 1].0, number as u32);
    }
    Ok(table)
}

impl<'a> Naming<'a> {
    /// The tables of a problem.
    pub(crate) fn of(
        alloc: Global,
        program: &Program,
        problem: &'a Problem,
    ) -> Result<Naming<'a>, Memory>
        ensures problem { IfOk result (λ n. n.problem.now ≡ problem.now) }
        ensures tables { IfOk result (IsNaming program.now) }
    {
        let sources = marks_of(alloc, program, problem.sources.as_slice())?;
        let sinks = marks_of(alloc, program, problem.sinks.as_slice())?;
        let points = marks_of(alloc, program, problem.points.as_slice())?;
        let places = places_of(alloc, program.len(), problem.source_places.as_slice())?;
        Ok(Naming {
            problem,
            sources,
            sinks,
            points,
            places,
        })
    }
}

/// The tables of all problems.
pub(crate) fn namings_of<'a>(
    alloc: Global,
    program: &Program,
    problems: &'a [Problem],
) -> Result<Vec<Naming<'a>>, Memory>
    ensures { IfOk result (λ v. AreNamings program.now problems.now v.items) }
{
    let mut namings = Vec::new(alloc);
    for problem in problems {
        namings.push(Naming::of(alloc, program, problem)?)?;
    }
    Ok(namings)
}
