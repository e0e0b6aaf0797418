//! The statements of main.
#![tactic(auto, using(crate::proofs::Turns::body_over, crate::proofs::Turns::body_more))]

ghost use Rattle.std.specs.Prelude.{◌≡◌, [], length};
ghost use Rattle.argot_first_form.specs.Reading.{statement, statement_behind, body, Moves};

use crate::fault::Fault;
use crate::reader::Reader;
use crate::steps::{Action, Name};
use crate::values::{call, value};
use std::alloc::Global;

// A statement that begins at this place and whose first name was read.
#[tactic(auto, unfolding(crate::specs::Reading::statement_behind))]
fn statement_behind(
    reader: &mut Reader<'_>,
    alloc: Global,
    at: usize,
    name: Name,
) -> Result<(), Fault>
    ensures { Moves result reader.new (statement_behind at name reader.old) }
{
    let depth = reader.total();
    if reader.skips(b" := ") {
        let value = value(reader, alloc, depth)?;
        return reader.push(
            at,
            Action::Define {
                variable: name,
                value,
            },
        );
    }
    if reader.skips(b" = ") {
        let value = value(reader, alloc, depth)?;
        return reader.push(
            at,
            Action::Assign {
                variable: name,
                value,
            },
        );
    }
    call(reader, alloc, depth, at, name)?;
    Ok(())
}

#[tactic(auto, unfolding(crate::specs::Reading::statement))]
fn statement(reader: &mut Reader<'_>, alloc: Global) -> Result<(), Fault>
    ensures { Moves result reader.new (statement reader.old) }
{
    let at = reader.place();
    let name = reader.name(alloc)?;
    statement_behind(reader, alloc, at, name)
}

/// The lines of main.
pub fn body(reader: &mut Reader<'_>, alloc: Global) -> Result<(), Fault>
    ensures { Moves result reader.new (body reader.old.total reader.old) }
{
    let mut fuel = reader.total();
    while fuel > 0 {
        fuel -= 1;
        if !reader.skips(b"\t") {
            return Ok(());
        }
        statement(reader, alloc)?;
        reader.takes(b"\n")?;
    }
    Err(Fault::OtherForm)
}
