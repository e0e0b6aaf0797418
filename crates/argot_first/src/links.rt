//! Which calls of sources the data of main's registers comes from. A link is 0 for none, else one more than
//! the number of a step that calls a source: a register leads to the nearest one, and each call to the next.

ghost use Rattle.std.specs.Prelude.{◌≡◌, ◌+◌, ◌<◌, ◌^◌, OnOk, length};
ghost use Rattle.argot_first.specs.Links.{link_at, link_in, handed, set_link, heads_after, nexts_after};
ghost use Rattle.argot_first.specs.Marks.{argument_at};

use crate::calls::{calls_source, passes, target};
use argot_first_form::Function;
use argot_plain::first::Kind;
use argot_text::Memory;

/// Where a register leads.
pub fn link_at(heads: &[usize], register: usize) -> usize
    ensures { result ≡ link_at heads.now register }
{
    match heads.get(register) {
        Some(link) => *link,
        None => 0,
    }
}

// Where an argument of a call leads.
fn link_of_argument(heads: &[usize], arguments: &[usize], parameter: Option<usize>) -> usize
    ensures { result ≡ link_in heads.now (argument_at arguments.now parameter) }
{
    match parameter {
        Some(parameter) => match arguments.get(parameter) {
            Some(register) => link_at(heads, *register),
            None => 0,
        },
        None => 0,
    }
}

// Where the data leads that a step hands on: every function gives one parameter back, or none.
fn handed(functions: &[Function], heads: &[usize], kind: &Kind) -> usize
    ensures { result ≡ handed functions.now heads.now kind.now }
{
    match kind {
        Kind::Move { from, .. } => link_at(heads, *from),
        Kind::Call {
            function,
            arguments,
            ..
        } => link_of_argument(heads, arguments.as_slice(), passes(functions, *function)),
        Kind::Op { .. } => 0,
        Kind::RunDefers => 0,
        Kind::Leave { .. } => 0,
        Kind::Goto { .. } => 0,
        Kind::Branch { .. } => 0,
    }
}

fn set_link(heads: &mut [usize], register: Option<usize>, link: usize)
    ensures { heads.new ≡ set_link heads.old register link }
{
    if let Some(register) = register {
        if register < heads.len() {
            heads[register] = link;
        }
    }
}

/// Takes the step `i`.
pub fn link_step(
    functions: &[Function],
    i: usize,
    heads: &mut [usize],
    nexts: &mut Vec<usize>,
    kind: &Kind,
) -> Result<(), Memory>
    requires { i + 1 < 2 ^ 64 }
    ensures heads { OnOk result (heads.new ≡ heads_after functions.now i heads.old kind.now) }
    ensures nexts { OnOk result (nexts.new.items ≡ nexts_after functions.now heads.old nexts.old.items kind.now) }
{
    let next = handed(functions, heads, kind);
    nexts.push(next)?;
    let link = if calls_source(functions, kind) {
        i + 1
    } else {
        next
    };
    set_link(heads, target(kind), link);
    Ok(())
}
