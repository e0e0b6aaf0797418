// The instruction at each place of a function.
ghost use Rattle.std.specs.Prelude.{◌≡◌, ◌+◌, ◌-◌, ◌^◌, ◌<◌, drop, take, length, slice_get};
ghost use Rattle.argot_plain_parts.specs.Parts.{leaves_of};
ghost use Rattle.argot_plain_parts.specs.Places.{are_inside, goes_inside, stands_right, parts_fit, values_fit, place_fits, places_fit, body_of, each_place_fits};

use crate::calls::calls_fit;
use crate::functions::leaves_of;
use crate::leaves::{are_joined, is_root, same_below, same_paths};
use crate::registers::{defines_below, has_references, reads_below};
use argot_plain::{Function, Instr, Kind};
use argot_text::Path;

fn are_inside(f: &Function, places: &[u32]) -> bool
    ensures { result ≡ are_inside f.now places.now }
{
    for i in 0..places.len() {
        if places[i] <= f.entry || places[i] > f.exit {
            return false;
        }
    }
    true
}

fn goes_inside(f: &Function, place: usize, kind: &Kind) -> bool
    ensures { result ≡ goes_inside f.now place kind.now }
{
    match kind {
        Kind::Leave { .. } | Kind::Panic { .. } => true,
        Kind::Goto { target } => {
            *target <= f.exit && (*target as usize == place || f.entry < *target)
        }
        Kind::Branch { targets } => are_inside(f, targets.as_slice()),
        _ => place < f.leave as usize,
    }
}

fn stands_right(f: &Function, place: usize, kind: &Kind) -> bool
    ensures { result ≡ stands_right f.now place kind.now }
{
    match kind {
        Kind::RunDefers => place == f.exit as usize,
        Kind::Leave { from } => place == f.leave as usize && from.len() == f.results as usize,
        Kind::Read { .. } => true,
        _ => place <= f.exit as usize || f.leave as usize <= place,
    }
}

fn parts_fit(f: &Function, whole: &[Path], parts: &[(Path, u32)]) -> bool
    ensures { result ≡ parts_fit f.now whole.now parts.now }
{
    for i in 0..parts.len() {
        let part = &parts[i];
        if !are_joined(part.0.as_slice(), leaves_of(f, part.1), whole) {
            return false;
        }
    }
    true
}

fn values_fit(f: &Function, kind: &Kind) -> bool
    ensures { result ≡ values_fit f.now kind.now }
{
    match kind {
        Kind::Op { to, .. } => is_root(leaves_of(f, *to)),
        Kind::Move { to, from, path } => {
            same_below(path.as_slice(), leaves_of(f, *from), leaves_of(f, *to))
        }
        Kind::Join { to, parts } => parts_fit(f, leaves_of(f, *to), parts.as_slice()),
        Kind::Read { to, leaves, .. } => same_paths(leaves.as_slice(), leaves_of(f, *to)),
        _ => true,
    }
}

fn place_fits(
    functions: &[Function],
    instrs: &[Instr],
    f: &Function,
    place: usize,
    kind: &Kind,
) -> bool
    ensures { result ≡ place_fits functions.now instrs.now f.now place kind.now }
{
    goes_inside(f, place, kind)
        && stands_right(f, place, kind)
        && defines_below(f.registers.len(), kind)
        && reads_below(f.registers.len(), kind)
        && has_references(f, kind)
        && values_fit(f, kind)
        && calls_fit(functions, instrs, f, kind)
}

fn places_fit(
    functions: &[Function],
    instrs: &[Instr],
    f: &Function,
    first: usize,
    body: &[Instr],
) -> bool
    requires { first + length body.now < 2 ^ 63 }
    ensures { result ≡ places_fit functions.now instrs.now f.now first body.now }
{
    for k in 0..body.len() {
        if !place_fits(functions, instrs, f, first + k, &body[k].kind) {
            return false;
        }
    }
    true
}

// The instructions of the function.
fn body_of<'a>(instrs: &'a [Instr], f: &Function) -> &'a [Instr]
    ensures { result.now ≡ body_of instrs.now f.now }
{
    let entry = f.entry as usize;
    let end = f.leave as usize + 1;
    if entry > instrs.len() || end < entry {
        return &[];
    }
    let (_, rest) = instrs.split_at(entry);
    if end - entry > rest.len() {
        return rest;
    }
    let (body, _) = rest.split_at(end - entry);
    body
}

/// Whether each instruction may stand at its place of its function.
pub fn each_place_fits(functions: &[Function], instrs: &[Instr]) -> bool
    ensures { result ≡ each_place_fits functions.now instrs.now functions.now }
{
    for i in 0..functions.len() {
        let f = &functions[i];
        if !places_fit(functions, instrs, f, f.entry as usize, body_of(instrs, f)) {
            return false;
        }
    }
    true
}
