// Functions: their ranges, bodies, roles and registers.
ghost use Rattle.std.specs.Prelude.{◌≡◌, ◌+◌, drop, length, slice_get, Some};
ghost use Rattle.argot_plain.specs.Code.{kind_of};
ghost use Rattle.argot_plain_parts.specs.Parts.{is_own, is_wrapper, goes_to, runs_defers, hands_back, leaves_of};
ghost use Rattle.argot_plain_parts.specs.Functions.{ranges_fit, has_entry, is_outside, is_body, has_frame, role_fits, name_fits, is_declared, wraps_fit, reference_fits, each_register_fits, function_fits, each_function_fits};

use crate::leaves::{is_root, no_path_twice};
use argot_plain::{Function, Instr, Kind, Role};
use argot_text::{Path, Paths};

/// The leaf paths of a register of the function, none where there is no such register.
pub fn leaves_of<'a>(function: &'a Function, register: u32) -> &'a [Path]
    ensures { result.now ≡ leaves_of function.now register }
{
    let registers = function.registers.as_vec();
    if (register as usize) < registers.len() {
        registers[register as usize].as_slice()
    } else {
        &[]
    }
}

/// Whether the functions stand one behind the other from the first place to the end.
pub fn ranges_fit(functions: &[Function], count: usize) -> bool
    ensures { result ≡ ranges_fit 0 count functions.now }
{
    let mut next = 0usize;
    for i in 0..functions.len() {
        let f = &functions[i];
        if f.entry as usize != next || f.entry > f.exit || f.exit > f.leave {
            return false;
        }
        if f.leave as usize >= count {
            return false;
        }
        next = f.leave as usize + 1;
    }
    next == count
}

fn is_own(role: &Role) -> bool
    ensures { result ≡ is_own role.now }
{
    matches!(role, Role::Own)
}

/// Whether a function has the role of a wrapper.
pub fn is_wrapper(role: &Role) -> bool
    ensures { result ≡ is_wrapper role.now }
{
    matches!(role, Role::Wrapper)
}

/// Whether the first function can be the entry.
pub fn has_entry(functions: &[Function]) -> bool
    ensures { result ≡ has_entry functions.now }
{
    match functions {
        [f, ..] => {
            f.external.is_none()
                && f.params == 0
                && f.results == 0
                && is_own(&f.role)
                && f.ident.is_none()
        }
        _ => false,
    }
}

fn goes_to(instrs: &[Instr], place: u32, target: usize) -> bool
    ensures { result ≡ goes_to (kind_of (slice_get instrs.now place)) target }
{
    if place as usize >= instrs.len() {
        return false;
    }
    match &instrs[place as usize].kind {
        Kind::Goto { target: to } => *to as usize == target,
        _ => false,
    }
}

fn runs_defers(instrs: &[Instr], place: u32) -> bool
    ensures { result ≡ runs_defers (kind_of (slice_get instrs.now place)) }
{
    if place as usize >= instrs.len() {
        return false;
    }
    matches!(&instrs[place as usize].kind, Kind::RunDefers)
}

fn hands_back(instrs: &[Instr], place: u32) -> bool
    ensures { result ≡ hands_back (kind_of (slice_get instrs.now place)) }
{
    if place as usize >= instrs.len() {
        return false;
    }
    matches!(&instrs[place as usize].kind, Kind::Leave { .. })
}

fn is_outside(instrs: &[Instr], f: &Function) -> bool
    ensures { result ≡ is_outside instrs.now f.now }
{
    f.exit == f.entry
        && f.leave == f.entry
        && goes_to(instrs, f.entry, f.entry as usize)
        && is_own(&f.role)
}

fn is_body(instrs: &[Instr], f: &Function) -> bool
    ensures { result ≡ is_body instrs.now f.now }
{
    f.entry < f.exit
        && f.exit < f.leave
        && goes_to(instrs, f.entry, f.entry as usize + 1)
        && runs_defers(instrs, f.exit)
        && hands_back(instrs, f.leave)
}

fn has_frame(instrs: &[Instr], f: &Function) -> bool
    ensures { result ≡ has_frame instrs.now f.now }
{
    if f.external.is_none() {
        is_body(instrs, f)
    } else {
        is_outside(instrs, f)
    }
}

fn role_fits(role: &Role, has_env: bool) -> bool
    ensures { result ≡ role_fits role.now has_env }
{
    match role {
        Role::Own => true,
        Role::Wrapper => !has_env,
        Role::Bound => has_env,
    }
}

fn name_fits(f: &Function) -> bool
    ensures { result ≡ name_fits f.now }
{
    f.ident.is_none() || (is_own(&f.role) && !f.has_env)
}

fn is_declared(functions: &[Function], number: u32) -> bool
    ensures { result ≡ is_declared (slice_get functions.now number) }
{
    if number as usize >= functions.len() {
        return false;
    }
    functions[number as usize].ident.is_some()
}

fn wraps_fit(functions: &[Function], role: &Role, wraps: Option<u32>) -> bool
    ensures { result ≡ wraps_fit functions.now role.now wraps }
{
    match wraps {
        None => true,
        Some(number) => is_wrapper(role) && is_declared(functions, number),
    }
}

fn reference_fits(f: &Function) -> bool
    ensures { result ≡ reference_fits f.now }
{
    !f.has_env || is_root(leaves_of(f, 0))
}

fn each_register_fits(registers: &[Paths]) -> bool
    ensures { result ≡ each_register_fits registers.now }
{
    for i in 0..registers.len() {
        let paths = registers[i].as_slice();
        if paths.len() > 4096 || !no_path_twice(paths) {
            return false;
        }
    }
    true
}

fn function_fits(functions: &[Function], instrs: &[Instr], files: usize, f: &Function) -> bool
    ensures { result ≡ function_fits functions.now instrs.now files f.now }
{
    has_frame(instrs, f)
        && role_fits(&f.role, f.has_env)
        && name_fits(f)
        && wraps_fit(functions, &f.role, f.wraps)
        && reference_fits(f)
        && f.params as usize <= f.registers.len()
        && each_register_fits(f.registers.as_slice())
        && (f.at.file as usize) < files
}

/// Whether each function is what functions are, but for its places.
pub fn each_function_fits(functions: &[Function], instrs: &[Instr], files: usize) -> bool
    ensures { result ≡ each_function_fits functions.now instrs.now files functions.now }
{
    for i in 0..functions.len() {
        if !function_fits(functions, instrs, files, &functions[i]) {
            return false;
        }
    }
    true
}
