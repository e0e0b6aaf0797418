// The registers that an instruction names.
ghost use Rattle.std.specs.Prelude.{◌≡◌, ◌<◌, ◌++◌, ◌∷◌, [], drop, length};
ghost use Rattle.argot_plain.specs.Code.{reads, defined, handed_values, parts_registers};
ghost use Rattle.argot_plain.specs.WellFormed.{reference_registers, callee_registers};
ghost use Rattle.argot_plain_parts.specs.Numbers.{all_below};
ghost use Rattle.argot_plain_parts.specs.Places.{all_roots};

use crate::functions::leaves_of;
use crate::leaves::is_root;
use crate::numbers::all_below;
use argot_plain::{Callee, Function, Kind};
use argot_text::Path;

/// Whether the registers that an instruction of this kind defines are below the bound.
pub fn defines_below(bound: usize, kind: &Kind) -> bool
    ensures { result ≡ all_below bound (defined kind.now) }
{
    match kind {
        Kind::Op { to, .. }
        | Kind::Move { to, .. }
        | Kind::Join { to, .. }
        | Kind::New { to, .. }
        | Kind::Step { to, .. }
        | Kind::Read { to, .. }
        | Kind::Grow { to, .. }
        | Kind::Global { to, .. }
        | Kind::Assert { to, .. }
        | Kind::Passed { to, .. } => (*to as usize) < bound,
        Kind::Call { to, .. } => all_below(bound, to.as_slice()),
        Kind::Write { .. }
        | Kind::Go { .. }
        | Kind::Defer { .. }
        | Kind::RunDefers
        | Kind::Leave { .. }
        | Kind::Goto { .. }
        | Kind::Branch { .. }
        | Kind::Panic { .. } => true,
    }
}

#[tactic(auto, using(crate::proofs::Handed::below_last))]
fn handed_below(bound: usize, callee: &Callee, args: &[u32]) -> bool
    ensures { result ≡ all_below bound (handed_values callee.now args.now) }
{
    match callee {
        Callee::Static(_) => all_below(bound, args),
        Callee::Value(r) => all_below(bound, args) && (*r as usize) < bound,
        Callee::Method(r, _) => (*r as usize) < bound && all_below(bound, args),
    }
}

fn parts_below(bound: usize, parts: &[(Path, u32)]) -> bool
    ensures { result ≡ all_below bound (parts_registers parts.now) }
{
    for i in 0..parts.len() {
        let register = parts[i].1;
        if register as usize >= bound {
            return false;
        }
    }
    true
}

/// Whether the registers that an instruction of this kind reads are below the bound.
pub fn reads_below(bound: usize, kind: &Kind) -> bool
    ensures { result ≡ all_below bound (reads kind.now) }
{
    match kind {
        Kind::Op { from, .. } | Kind::Leave { from } => all_below(bound, from.as_slice()),
        Kind::Move { from, .. }
        | Kind::Step { from, .. }
        | Kind::Assert { from, .. }
        | Kind::Panic { from } => (*from as usize) < bound,
        Kind::Join { parts, .. } => parts_below(bound, parts.as_slice()),
        Kind::Read { at, .. } => (*at as usize) < bound,
        Kind::Write { at, from } => (*at as usize) < bound && (*from as usize) < bound,
        Kind::Grow { at, items, .. } => {
            (*at as usize) < bound && all_below(bound, items.as_slice())
        }
        Kind::Call { callee, args, .. }
        | Kind::Go { callee, args }
        | Kind::Defer { callee, args } => handed_below(bound, callee, args.as_slice()),
        Kind::Passed { to, .. } => (*to as usize) < bound,
        Kind::New { .. }
        | Kind::Global { .. }
        | Kind::RunDefers
        | Kind::Goto { .. }
        | Kind::Branch { .. } => true,
    }
}

// Whether the register holds one reference.
fn is_reference(f: &Function, register: u32) -> bool
    ensures { result ≡ all_roots f.now (register ∷ []) }
{
    is_root(leaves_of(f, register))
}

fn callee_is_reference(f: &Function, callee: &Callee) -> bool
    ensures { result ≡ all_roots f.now (callee_registers callee.now) }
{
    match callee {
        Callee::Static(_) => true,
        Callee::Value(r) | Callee::Method(r, _) => is_reference(f, *r),
    }
}

/// Whether the registers that have to hold one reference do so.
pub fn has_references(f: &Function, kind: &Kind) -> bool
    ensures { result ≡ all_roots f.now (reference_registers kind.now) }
{
    match kind {
        Kind::New { to, .. } | Kind::Global { to, .. } => is_reference(f, *to),
        Kind::Step { to, from, .. } | Kind::Assert { to, from, .. } => {
            is_reference(f, *to) && is_reference(f, *from)
        }
        Kind::Read { at, .. } | Kind::Write { at, .. } => is_reference(f, *at),
        Kind::Grow { to, at, .. } => is_reference(f, *to) && is_reference(f, *at),
        Kind::Call { callee, .. } | Kind::Go { callee, .. } | Kind::Defer { callee, .. } => {
            callee_is_reference(f, callee)
        }
        _ => true,
    }
}
