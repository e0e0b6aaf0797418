//! The lines of a file.
#![tactic(auto, using(crate::proofs::Turns::items_over, crate::proofs::Turns::items_more))]

ghost use Rattle.std.specs.Prelude.{◌≡◌, [], length, Some, None};
ghost use Rattle.argot_first_form.specs.Reading.{items, read, main_behind, main_line, IsRead, Gives, Moves};

use crate::fault::Fault;
use crate::functions::Function;
use crate::headers::function;
use crate::reader::{Reader, open};
use crate::statements::body;
use crate::steps::Step;
use sqlite_items::Items;
use std::alloc::Global;

/// The functions before main, up to main's first line and with it.
fn items(reader: &mut Reader<'_>, alloc: Global) -> Result<Items<Function>, Fault>
    ensures { Gives (λ xs. xs) result reader.new (items reader.old.total [] reader.old) }
{
    let mut functions = Items::new(alloc);
    let mut fuel = reader.total();
    while fuel > 0 {
        fuel -= 1;
        if reader.skips(b"\n") {
            continue;
        }
        if reader.skips(b"func main() {\n") {
            return Ok(functions);
        }
        let function = function(reader, alloc)?;
        functions.push(function)?;
    }
    Err(Fault::OtherForm)
}

// Main behind its first line, up to the end of the file.
#[tactic(auto, unfolding(crate::specs::Reading::main_behind))]
fn main_behind(reader: &mut Reader<'_>, alloc: Global) -> Result<(), Fault>
    ensures { Moves result reader.new (main_behind reader.old) }
{
    body(reader, alloc)?;
    reader.takes(b"}\n")?;
    if reader.is_at_end() {
        Ok(())
    } else {
        Err(Fault::OtherForm)
    }
}

/// A program as it was read.
#[derive(Debug, Drop)]
pub struct Program {
    /// The functions that stand before main.
    pub functions: Items<Function>,
    /// The steps of main.
    pub steps: Items<Step>,
}

#[tactic(auto, unfolding(crate::specs::Reading::read))]
pub fn read_all(alloc: Global, text: &[u8]) -> Result<Program, Fault>
    ensures { IsRead result (read text.now) }
{
    let mut reader = open(alloc, text);
    reader.takes(b"package main\n")?;
    let functions = items(&mut reader, alloc)?;
    main_behind(&mut reader, alloc)?;
    let steps = Items::from_vec(reader.into_steps());
    Ok(Program { functions, steps })
}
