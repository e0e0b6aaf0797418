//! The heads and the bodies of the functions that stand before main.
#![tactic(auto, using(crate::proofs::Turns::parameters_over, crate::proofs::Turns::parameters_more))]

ghost use Rattle.std.specs.Prelude.{◌≡◌, [], length};
ghost use Rattle.argot_first_form.specs.Reading.{atom, returned, parameters, all_parameters, function, Gives};

use crate::fault::Fault;
use crate::functions::{Function, Returned};
use crate::reader::Reader;
use crate::steps::Name;
use sqlite_items::Items;
use std::alloc::Global;

#[tactic(auto, unfolding(crate::specs::Reading::atom))]
fn atom(reader: &mut Reader<'_>, alloc: Global) -> Result<Returned, Fault>
    ensures { Gives (λ x. x) result reader.new (atom reader.old) }
{
    if reader.begins(b"\"") {
        reader.quoted()?;
        return Ok(Returned::Text);
    }
    let name = reader.name(alloc)?;
    Ok(Returned::Parameter(name))
}

// What a function gives back, behind its parameters.
#[tactic(auto, unfolding(crate::specs::Reading::returned))]
fn returned(reader: &mut Reader<'_>, alloc: Global) -> Result<Returned, Fault>
    ensures { Gives (λ x. x) result reader.new (returned reader.old) }
{
    if reader.skips(b") {}") {
        return Ok(Returned::Nothing);
    }
    reader.takes(b") string { return ")?;
    let returned = atom(reader, alloc)?;
    reader.takes(b" }")?;
    Ok(returned)
}

fn parameters(reader: &mut Reader<'_>, alloc: Global) -> Result<Items<Name>, Fault>
    ensures { Gives (λ xs. xs) result reader.new (parameters reader.old.total [] reader.old) }
{
    let mut names = Items::new(alloc);
    let mut fuel = reader.total();
    while fuel > 0 {
        fuel -= 1;
        let name = reader.name(alloc)?;
        names.push(name)?;
        reader.takes(b" string")?;
        if !reader.skips(b", ") {
            return Ok(names);
        }
    }
    Err(Fault::OtherForm)
}

fn all_parameters(reader: &mut Reader<'_>, alloc: Global) -> Result<Items<Name>, Fault>
    ensures { Gives (λ xs. xs) result reader.new (all_parameters reader.old) }
{
    if reader.begins(b")") {
        return Ok(Items::new(alloc));
    }
    parameters(reader, alloc)
}

/// A function on a line of its own.
#[tactic(auto, unfolding(crate::specs::Reading::function))]
pub fn function(reader: &mut Reader<'_>, alloc: Global) -> Result<Function, Fault>
    ensures { Gives (λ x. x) result reader.new (function reader.old) }
{
    reader.takes(b"func ")?;
    let name = reader.name(alloc)?;
    reader.takes(b"(")?;
    let parameters = all_parameters(reader, alloc)?;
    let returned = returned(reader, alloc)?;
    reader.takes(b"\n")?;
    Ok(Function {
        name,
        parameters,
        returned,
    })
}
