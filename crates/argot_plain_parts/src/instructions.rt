// Instructions, whichever function has them.
ghost use Rattle.std.specs.Prelude.{◌≡◌, ◌+◌, drop, length, slice_get};
ghost use Rattle.argot_plain_parts.specs.Instructions.{callee_there, is_site_of, names_there, may_have_tags, instr_fits, instrs_fit};

use crate::numbers::no_number_twice;
use argot_plain::{Callee, Instr, Kind, Site};

fn callee_there(functions: usize, callee: &Callee) -> bool
    ensures { result ≡ callee_there functions callee.now }
{
    match callee {
        Callee::Static(number) => (*number as usize) < functions,
        _ => true,
    }
}

fn is_site_of(globals: usize, place: usize, site: u32, sites: &[Site]) -> bool
    ensures { result ≡ is_site_of globals place site (slice_get sites.now site) }
{
    if site as usize >= sites.len() {
        return false;
    }
    globals <= site as usize && sites[site as usize].place as usize == place
}

fn names_there(functions: usize, globals: usize, sites: &[Site], place: usize, kind: &Kind) -> bool
    ensures { result ≡ names_there functions globals sites.now place kind.now }
{
    match kind {
        Kind::Call { to, callee, .. } => {
            callee_there(functions, callee) && no_number_twice(to.as_slice())
        }
        Kind::Go { callee, .. } | Kind::Defer { callee, .. } => callee_there(functions, callee),
        Kind::Passed { callee, .. } => (*callee as usize) < functions,
        Kind::Global { global, .. } => (*global as usize) < globals,
        Kind::New { site, .. } => is_site_of(globals, place, *site, sites),
        _ => true,
    }
}

fn may_have_tags(kind: &Kind) -> bool
    ensures { result ≡ may_have_tags kind.now }
{
    matches!(kind, Kind::Read { .. } | Kind::Move { .. })
}

fn instr_fits(
    functions: usize,
    globals: usize,
    sites: &[Site],
    files: usize,
    place: usize,
    x: &Instr,
) -> bool
    ensures { result ≡ instr_fits functions globals sites.now files place x.now }
{
    names_there(functions, globals, sites, place, &x.kind)
        && (x.tags.len() == 0 || may_have_tags(&x.kind))
        && (x.at.file as usize) < files
}

/// Whether each instruction names what is there.
pub fn instrs_fit(
    functions: usize,
    globals: usize,
    sites: &[Site],
    files: usize,
    instrs: &[Instr],
) -> bool
    ensures { result ≡ instrs_fit functions globals sites.now files 0 instrs.now }
{
    for i in 0..instrs.len() {
        if !instr_fits(functions, globals, sites, files, i, &instrs[i]) {
            return false;
        }
    }
    true
}
