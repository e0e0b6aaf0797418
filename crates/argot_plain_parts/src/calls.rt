// Calls by number: what is handed over and what is given back.
ghost use Rattle.std.specs.Prelude.{◌≡◌, ◌+◌, ◌<◌, ◌^◌, drop, length, slice_get};
ghost use Rattle.argot_plain.specs.Code.{kind_of};
ghost use Rattle.argot_plain_parts.specs.Places.{args_fit, results_fit, returned_fit, takes, taken, gives, given, hands_over, takes_back, calls_fit};

use crate::functions::leaves_of;
use crate::leaves::same_paths;
use argot_plain::{Callee, Function, Instr, Kind};

// Whether the arguments have the leaves of the parameters.
fn args_fit(f: &Function, target: &Function, args: &[u32]) -> bool
    requires { length args.now < 2 ^ 32 }
    ensures { result ≡ args_fit f.now target.now 0 args.now }
{
    for i in 0..args.len() {
        if !same_paths(leaves_of(f, args[i]), leaves_of(target, i as u32)) {
            return false;
        }
    }
    true
}

// Whether what a call gives has the leaves of what the target hands back.
fn results_fit(f: &Function, target: &Function, to: &[u32], from: &[u32]) -> bool
    ensures { result ≡ results_fit f.now target.now to.now from.now }
{
    for i in 0..to.len() {
        if i >= from.len() {
            return true;
        }
        if !same_paths(leaves_of(f, to[i]), leaves_of(target, from[i])) {
            return false;
        }
    }
    true
}

fn returned_fit(f: &Function, target: &Function, to: &[u32], instrs: &[Instr]) -> bool
    ensures { result ≡ returned_fit f.now target.now to.now (kind_of (slice_get instrs.now target.now.leave)) }
{
    let place = target.leave as usize;
    if place >= instrs.len() {
        return true;
    }
    match &instrs[place].kind {
        Kind::Leave { from } => results_fit(f, target, to, from.as_slice()),
        _ => true,
    }
}

fn takes(f: &Function, args: &[u32], target: &Function) -> bool
    ensures { result ≡ takes f.now args.now target.now }
{
    args.len() == target.params as usize && !target.has_env && args_fit(f, target, args)
}

fn taken(f: &Function, args: &[u32], functions: &[Function], number: u32) -> bool
    ensures { result ≡ taken f.now args.now (slice_get functions.now number) }
{
    if number as usize >= functions.len() {
        return false;
    }
    takes(f, args, &functions[number as usize])
}

fn gives(instrs: &[Instr], f: &Function, to: &[u32], target: &Function) -> bool
    ensures { result ≡ gives instrs.now f.now to.now target.now }
{
    to.len() == target.results as usize
        && (!target.external.is_none() || returned_fit(f, target, to, instrs))
}

fn given(instrs: &[Instr], f: &Function, to: &[u32], functions: &[Function], number: u32) -> bool
    ensures { result ≡ given instrs.now f.now to.now (slice_get functions.now number) }
{
    if number as usize >= functions.len() {
        return false;
    }
    gives(instrs, f, to, &functions[number as usize])
}

fn hands_over(functions: &[Function], f: &Function, args: &[u32], callee: &Callee) -> bool
    ensures { result ≡ hands_over functions.now f.now args.now callee.now }
{
    match callee {
        Callee::Static(number) => taken(f, args, functions, *number),
        _ => true,
    }
}

fn takes_back(
    functions: &[Function],
    instrs: &[Instr],
    f: &Function,
    to: &[u32],
    callee: &Callee,
) -> bool
    ensures { result ≡ takes_back functions.now instrs.now f.now to.now callee.now }
{
    match callee {
        Callee::Static(number) => given(instrs, f, to, functions, *number),
        _ => true,
    }
}

/// Whether a call by number hands over what the function takes and gets what it gives.
pub fn calls_fit(functions: &[Function], instrs: &[Instr], f: &Function, kind: &Kind) -> bool
    ensures { result ≡ calls_fit functions.now instrs.now f.now kind.now }
{
    match kind {
        Kind::Call { to, callee, args } => {
            hands_over(functions, f, args.as_slice(), callee)
                && takes_back(functions, instrs, f, to.as_slice(), callee)
        }
        Kind::Go { callee, args } | Kind::Defer { callee, args } => {
            hands_over(functions, f, args.as_slice(), callee)
        }
        _ => true,
    }
}
