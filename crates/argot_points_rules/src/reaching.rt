// The definitions that reach a place.
ghost use Rattle.std.specs.Prelude.{◌≡◌, ◌++◌, ◌∷◌, [], ◌==◌, nat_lt, Some, None, length, drop, slice_get, OnOk, IfOk, if◌then◌else◌};
ghost use Rattle.argot_points_rules.specs.Column.{positions, defined_by, definitions_at, definitions};
ghost use Rattle.argot_plain.specs.Code.{kind_of, defined};

use crate::nodes::small;
use argot_plain::{Function, Kind, Program};
use argot_text::Memory;
use std::alloc::Global;

/// Adds the place with each index at which the list has the register.
fn push_positions(
    found: &mut Vec<(u32, u32)>,
    place: u32,
    register: u32,
    list: &[u32],
) -> Result<(), Memory>
    ensures { OnOk result (found.new.items ≡ found.old.items ++ positions place register 0 list.now) }
{
    for k in 0..list.len() {
        if list[k] == register {
            found.push((place, small(k)?))?;
        }
    }
    Ok(())
}

/// Adds the place with each index at which the instruction defines the register.
fn push_defined(
    found: &mut Vec<(u32, u32)>,
    place: u32,
    register: u32,
    kind: &Kind,
) -> Result<(), Memory>
    ensures { OnOk result (found.new.items ≡ found.old.items ++ positions place register 0 (defined kind.now)) }
{
    match kind {
        Kind::Op { to, .. } => push_positions(found, place, register, &[*to]),
        Kind::Move { to, .. } => push_positions(found, place, register, &[*to]),
        Kind::Join { to, .. } => push_positions(found, place, register, &[*to]),
        Kind::New { to, .. } => push_positions(found, place, register, &[*to]),
        Kind::Step { to, .. } => push_positions(found, place, register, &[*to]),
        Kind::Read { to, .. } => push_positions(found, place, register, &[*to]),
        Kind::Grow { to, .. } => push_positions(found, place, register, &[*to]),
        Kind::Global { to, .. } => push_positions(found, place, register, &[*to]),
        Kind::Assert { to, .. } => push_positions(found, place, register, &[*to]),
        Kind::Passed { to, .. } => push_positions(found, place, register, &[*to]),
        Kind::Call { to, .. } => push_positions(found, place, register, to.as_slice()),
        Kind::Write { .. } => Ok(()),
        Kind::Go { .. } => Ok(()),
        Kind::Defer { .. } => Ok(()),
        Kind::RunDefers => Ok(()),
        Kind::Leave { .. } => Ok(()),
        Kind::Goto { .. } => Ok(()),
        Kind::Branch { .. } => Ok(()),
        Kind::Panic { .. } => Ok(()),
    }
}

/// Adds the place with each index at which it defines the register.
fn push_definition(
    found: &mut Vec<(u32, u32)>,
    program: &Program,
    function: &Function,
    register: u32,
    place: u32,
) -> Result<(), Memory>
    ensures { OnOk result (found.new.items ≡ found.old.items ++ definitions_at program.now function.now register place) }
{
    if place == function.entry {
        if register < function.params {
            found.push((place, register))?;
        }
        return Ok(());
    }
    if place as usize >= program.len() {
        return Ok(());
    }
    push_defined(found, place, register, program.kind(place as usize))
}

/// The definitions of a register that reach a place of the function, each with the index of its result.
pub fn definitions(
    alloc: Global,
    program: &Program,
    function: &Function,
    defs: &[(u32, u32, u32)],
    place: u32,
    register: u32,
) -> Result<Vec<(u32, u32)>, Memory>
    ensures { IfOk result (λ v. v.items ≡ definitions program.now function.now place register defs.now) }
{
    let mut found = Vec::new(alloc);
    for n in 0..defs.len() {
        if defs[n].1 == place && defs[n].2 == register {
            push_definition(&mut found, program, function, register, defs[n].0)?;
        }
    }
    Ok(found)
}
