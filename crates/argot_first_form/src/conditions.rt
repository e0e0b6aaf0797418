//! The conditions on the names of a program's functions.

ghost use Rattle.std.specs.Prelude.{◌≡◌, ◌↔◌, IfOk, IsTrue, not};
ghost use Rattle.std.specs.List.{list_all};
ghost use Rattle.argot_first_form.specs.Form.{among, distinct, names_of, returns_own, FunctionsFit};
ghost use Rattle.argot_first_form.specs.Names.{HasFunctions};

use crate::functions::{Function, Returned};
use crate::names::{Scope, functions_differ, knows, names_differ};
use crate::steps::Name;
use std::alloc::{AllocError, Global};

/// Whether the name is among these.
pub fn is_among(names: &[Name], name: &[u8]) -> bool
    ensures { result ≡ among names.now name.now }
{
    names.iter().any(|other| other.as_slice() == name)
}

/// Whether one of the functions has this name.
pub fn has_name(scope: &Scope<'_>, name: &[u8]) -> bool
    requires { HasFunctions scope.now.numbers 0 scope.now.functions.now }
    ensures { result ≡ among (names_of scope.now.functions.now) name.now }
{
    knows(&scope.numbers, name)
}

fn are_apart(scope: &Scope<'_>, names: &[Name]) -> bool
    requires { HasFunctions scope.now.numbers 0 scope.now.functions.now }
    ensures { result ≡ list_all (λ p. not (among (names_of scope.now.functions.now) p)) names.now }
{
    for name in names {
        if has_name(scope, name.as_slice()) {
            return false;
        }
    }
    true
}

fn returns_own(parameters: &[Name], returned: &Returned) -> bool
    ensures { result ≡ returns_own parameters.now returned.now }
{
    match returned {
        Returned::Parameter(name) => is_among(parameters, name.as_slice()),
        Returned::Text => true,
        Returned::Nothing => true,
    }
}

fn all_parameters_differ(alloc: Global, functions: &[Function]) -> Result<bool, AllocError>
    ensures { IfOk result (λ b. b ≡ list_all (λ f. distinct f.parameters) functions.now) }
{
    for function in functions {
        if !names_differ(alloc, function.parameters.as_slice())? {
            return Ok(false);
        }
    }
    Ok(true)
}

fn all_parameters_apart(scope: &Scope<'_>) -> bool
    requires { HasFunctions scope.now.numbers 0 scope.now.functions.now }
    ensures { result ≡ list_all (λ f. list_all (λ p. not (among (names_of scope.now.functions.now) p)) f.parameters) scope.now.functions.now }
{
    for function in scope.functions {
        if !are_apart(scope, function.parameters.as_slice()) {
            return false;
        }
    }
    true
}

fn all_return_own(functions: &[Function]) -> bool
    ensures { result ≡ list_all (λ f. returns_own f.parameters f.returned) functions.now }
{
    functions.iter().all(|function| returns_own(function.parameters.as_slice(), &function.returned))
}

/// Whether the names of the functions meet the conditions.
pub fn functions_fit(alloc: Global, scope: &Scope<'_>) -> Result<bool, AllocError>
    requires { HasFunctions scope.now.numbers 0 scope.now.functions.now }
    ensures { IfOk result (λ b. IsTrue b ↔ FunctionsFit scope.now.functions.now) }
{
    let differ = functions_differ(alloc, scope.functions)?
        && all_parameters_differ(alloc, scope.functions)?;
    Ok(differ && all_parameters_apart(scope) && all_return_own(scope.functions))
}
