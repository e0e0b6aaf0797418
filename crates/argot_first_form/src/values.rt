//! Values: variables, texts in quotes and calls.
#![tactic(auto, using(crate::proofs::Turns::value_none, crate::proofs::Turns::arguments_none, crate::proofs::Turns::arguments_over, crate::proofs::Turns::value_more, crate::proofs::Turns::arguments_more))]

ghost use Rattle.std.specs.Prelude.{◌≡◌, [], length};
ghost use Rattle.argot_first_form.specs.Reading.{value, arguments, call_by, arguments_by, named_by, Gives};

use crate::fault::Fault;
use crate::reader::Reader;
use crate::steps::{Action, Name, Operand};
use sqlite_items::Items;
use std::alloc::Global;

/// A value with at most so many calls within each other.
#[cycle(values)]
pub fn value(reader: &mut Reader<'_>, alloc: Global, depth: usize) -> Result<Operand, Fault>
    ensures { Gives (λ v. v) result reader.new (value depth reader.old) }
{
    if depth == 0 {
        return Err(Fault::OtherForm);
    }
    let at = reader.place();
    if reader.begins(b"\"") {
        reader.quoted()?;
        let operand = reader.next_step();
        reader.push(at, Action::Text)?;
        return Ok(operand);
    }
    let name = reader.name(alloc)?;
    if reader.begins(b"(") {
        return call(reader, alloc, depth - 1, at, name);
    }
    Ok(Operand::Variable(name))
}

/// A call whose name was read, from its opening bracket on.
#[cycle(values)]
pub fn call(
    reader: &mut Reader<'_>,
    alloc: Global,
    depth: usize,
    at: usize,
    function: Name,
) -> Result<Operand, Fault>
    ensures { Gives (λ v. v) result reader.new (call_by (arguments depth []) at function reader.old) }
{
    reader.takes(b"(")?;
    let arguments = arguments(reader, alloc, depth)?;
    let operand = reader.next_step();
    reader.push(
        at,
        Action::Call {
            function,
            arguments,
        },
    )?;
    Ok(operand)
}

/// The arguments behind an opening bracket, and the closing one.
#[cycle(values)]
fn arguments(reader: &mut Reader<'_>, alloc: Global, depth: usize) -> Result<Items<Operand>, Fault>
    ensures { Gives (λ vs. vs) result reader.new (arguments_by (arguments depth []) reader.old) }
{
    if reader.skips(b")") {
        return Ok(Items::new(alloc));
    }
    let operands = values(reader, alloc, depth)?;
    reader.takes(b")")?;
    Ok(operands)
}

// Values with commas between.
#[cycle(values)]
fn values(reader: &mut Reader<'_>, alloc: Global, depth: usize) -> Result<Items<Operand>, Fault>
    ensures { Gives (λ vs. vs) result reader.new (arguments depth [] reader.old) }
{
    let mut operands = Items::new(alloc);
    let mut fuel = depth;
    while fuel > 0 {
        fuel -= 1;
        let operand = value(reader, alloc, fuel)?;
        operands.push(operand)?;
        if !reader.skips(b", ") {
            return Ok(operands);
        }
    }
    Err(Fault::OtherForm)
}
