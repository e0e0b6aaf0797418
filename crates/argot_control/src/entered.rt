// Places that control may enter from elsewhere than the place before: exits, and targets of Gotos and Branches.
ghost use Rattle.std.specs.Prelude.{◌≡◌, ℕ, IfOk, length};
ghost use Rattle.argot_plain.specs.Lists.{In};
ghost use Rattle.argot_control.specs.Numbering.{Marks, LeadsTo, IsTarget, IsExit, AreEntered};

use argot_facts::mark;
use argot_plain::{Kind, Program};
use argot_text::Memory;
use std::alloc::Global;

/// Sets the flag of a place, where it has one.
fn enter(flags: &mut Vec<bool>, place: u32)
    ensures { Marks (λ m. m ≡ place) flags.old.items flags.new.items }
{
    let n = place as usize;
    if n < flags.len() {
        mark(flags, n);
    }
}

/// Sets the flags of these places.
fn enter_all(flags: &mut Vec<bool>, places: &[u32])
    ensures { Marks (λ m. In m places.now) flags.old.items flags.new.items }
{
    for k in 0..places.len() {
        enter(flags, places[k]);
    }
}

/// Sets the flags of the places to which an instruction goes on by name.
fn enter_targets(flags: &mut Vec<bool>, kind: &Kind)
    ensures { Marks (LeadsTo kind.now) flags.old.items flags.new.items }
{
    match kind {
        Kind::Goto { target } => enter(flags, *target),
        Kind::Branch { targets } => enter_all(flags, targets.as_slice()),
        _ => {}
    }
}

/// Sets the flags of the targets of all Gotos and Branches.
fn enter_all_targets(program: &Program, flags: &mut Vec<bool>)
    ensures { Marks (IsTarget program.now) flags.old.items flags.new.items }
{
    for k in 0..program.len() {
        enter_targets(flags, program.kind(k));
    }
}

/// Sets the flags of all exits.
fn enter_exits(program: &Program, flags: &mut Vec<bool>)
    ensures { Marks (IsExit program.now) flags.old.items flags.new.items }
{
    for h in 0..program.function_count() {
        enter(flags, program.function(h).exit);
    }
}

/// For each place whether control may enter it from elsewhere than the place before, as far as exits and targets go.
pub(crate) fn entered(alloc: Global, program: &Program) -> Result<Vec<bool>, Memory>
    ensures { IfOk result (λ v. AreEntered program.now v.items) }
{
    let mut flags = vec![in alloc; false; program.len()]?;
    enter_exits(program, &mut flags);
    enter_all_targets(program, &mut flags);
    Ok(flags)
}
