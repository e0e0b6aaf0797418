// The program of the parts, if they pass every test.
ghost use Rattle.std.specs.Prelude.{◌≡◌, true, false, length, drop, IfSome, IfNone};
ghost use Rattle.argot_plain_parts.specs.Parts.{code_of};
ghost use Rattle.argot_plain_parts.specs.Passing.{functions_pass, sites_pass, names_pass, passes};

use crate::functions::{each_function_fits, has_entry, ranges_fit};
use crate::instructions::instrs_fit;
use crate::owners::{grows_fit, owned_fit};
use crate::parts::Parts;
use crate::places::each_place_fits;
use crate::sites::{globals_fit, in_order, sites_fit};
use crate::wrappers::methods_fit;
use argot_plain::Program;

fn functions_pass(parts: &Parts) -> bool
    ensures { result ≡ functions_pass (code_of parts.now) }
{
    let functions = parts.functions.as_slice();
    let instrs = parts.instrs.as_slice();
    functions.len() <= 65536
        && instrs.len() <= 1048576
        && ranges_fit(functions, instrs.len())
        && has_entry(functions)
        && each_function_fits(functions, instrs, parts.files.len())
        && each_place_fits(functions, instrs)
}

fn sites_pass(parts: &Parts) -> bool
    ensures { result ≡ sites_pass (code_of parts.now) }
{
    let functions = parts.functions.as_slice();
    let instrs = parts.instrs.as_slice();
    let sites = parts.sites.as_slice();
    let globals = parts.globals.as_slice();
    if globals.len() > sites.len() {
        return false;
    }
    let (_, made) = sites.split_at(globals.len());
    globals_fit(parts.files.len(), sites, globals)
        && in_order(made)
        && sites_fit(functions, instrs, globals.len(), made)
        && owned_fit(instrs, functions, made)
        && grows_fit(instrs, made)
}

fn names_pass(parts: &Parts) -> bool
    ensures { result ≡ names_pass (code_of parts.now) }
{
    let functions = parts.functions.as_slice();
    instrs_fit(
        functions.len(),
        parts.globals.len(),
        parts.sites.as_slice(),
        parts.files.len(),
        parts.instrs.as_slice(),
    ) && methods_fit(functions, parts.methods.as_slice())
}

fn passes(parts: &Parts) -> bool
    ensures { result ≡ passes (code_of parts.now) }
{
    functions_pass(parts) && sites_pass(parts) && names_pass(parts)
}

/// The program of these parts, unchanged; None where they fail a test.
pub fn program_of(parts: Parts) -> Option<Program>
    ensures some { IfSome result (λ p. p ≡ code_of parts) }
    ensures none { IfNone result (passes (code_of parts) ≡ false) }
{
    if !passes(&parts) {
        return None;
    }
    let Parts {
        functions,
        instrs,
        sites,
        globals,
        methods,
        implements,
        files,
    } = parts;
    Some(Program::from_parts(
        functions, instrs, sites, globals, methods, implements, files,
    ))
}
