// What functions and places are under a problem.
ghost use Rattle.std.specs.Prelude.{◌≡◌, ◌&&◌, not, Some, IfOk};
ghost use Rattle.argot_plain.specs.Fitting.{Fits};
ghost use Rattle.argot_graph_edges.specs.Tabled.{AreTables, cleaned, sinks_at};
ghost use Rattle.argot_roles.specs.Counting.{flag_at};

use argot_facts::is_marked;
use argot_plain::{Problem, Program};
use argot_roles::{counted, left_out, listed};
use argot_text::Memory;
use std::alloc::Global;

/// By place whether its call counts as nothing; by function whether it counts as a source, a sink or a sanitizer, and whether it
/// is a validator.
#[derive(Drop)]
pub(crate) struct Tables {
    pub left_out: Vec<bool>,
    pub sources: Vec<bool>,
    pub sinks: Vec<bool>,
    pub sanitizers: Vec<bool>,
    pub validators: Vec<bool>,
}

/// The tables of a problem.
pub(crate) fn tables_of(
    alloc: Global,
    program: &Program,
    problem: &Problem,
) -> Result<Tables, Memory>
    requires { Fits program.now problem.now }
    ensures { IfOk result (AreTables program.now problem.now) }
{
    let left_out = left_out(alloc, program)?;
    let sources = counted(alloc, program, problem.sources.as_slice())?;
    let sinks = counted(alloc, program, problem.sinks.as_slice())?;
    let sanitizers = counted(alloc, program, problem.sanitizers.as_slice())?;
    let validators = listed(
        alloc,
        problem.validators.as_slice(),
        program.function_count(),
    )?;
    Ok(Tables {
        left_out,
        sources,
        sinks,
        sanitizers,
        validators,
    })
}

/// Whether the flag of a number is set; where there is none, it isn't.
fn flag(flags: &[bool], n: u32) -> bool
    ensures { result ≡ flag_at flags.now (Some n) }
{
    is_marked(flags, n as usize)
}

/// Whether the target counts so at the place.
fn counts(left_out: &[bool], flags: &[bool], place: u32, g: u32) -> bool
    ensures { result ≡ (not (flag_at left_out.now (Some place)) && flag_at flags.now (Some g)) }
{
    !flag(left_out, place) && flag(flags, g)
}

/// Whether the target cleans what it hands back to the place: a sanitizer that is no source.
pub(crate) fn cleans(tables: &Tables, place: u32, g: u32) -> bool
    ensures { result ≡ cleaned tables.now place g }
{
    counts(&tables.left_out, &tables.sanitizers, place, g)
        && !counts(&tables.left_out, &tables.sources, place, g)
}

/// Whether the target counts as a sink at the place.
pub(crate) fn is_sink(tables: &Tables, place: u32, g: u32) -> bool
    ensures { result ≡ sinks_at tables.now place g }
{
    counts(&tables.left_out, &tables.sinks, place, g)
}

/// Whether the function is a validator.
pub(crate) fn is_validator(tables: &Tables, g: u32) -> bool
    ensures { result ≡ flag_at tables.now.validators.items (Some g) }
{
    flag(&tables.validators, g)
}
