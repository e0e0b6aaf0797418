//! The conditions on the names of main's steps.

ghost use Rattle.std.specs.Prelude.{◌≡◌, ◌↔◌, ◌&&◌, IfOk, IsTrue, [], length, slice_get};
ghost use Rattle.std.specs.List.{list_all};
ghost use Rattle.std.specs.Option.{option_copied};
ghost use Rattle.argot_first_form.specs.Form.{among, declared, declared_by, named, has_parameters, has_result, is_nothing, action_gives, declares_new, assigns_old, reads_old, calls_known, uses_result, operands_in, StepsFit};
ghost use Rattle.argot_first_form.specs.Names.{HasFunctions, HasSteps, Sees};
ghost use Rattle.argot_first_form.specs.Checks.{step_fits, steps_fit};

use crate::conditions::has_name;
use crate::functions::{Function, Returned};
use crate::names::{Names, Scope, number_of, step_numbers};
use crate::steps::{Action, Operand, Step};
use sqlite_items::at;
use std::alloc::{AllocError, Global};

// Whether one of these first steps declares a variable of this name.
fn is_declared(variables: &Names<'_>, before: &[Step], name: &[u8]) -> bool
    requires { Sees variables.now before.now }
    ensures { result ≡ among (declared before.now) name.now }
{
    match number_of(variables, name) {
        Some(i) => i < before.len(),
        None => false,
    }
}

/// The function of this name.
#[tactic(auto, using(crate::proofs::Tables::found_there, crate::proofs::Tables::found_nowhere))]
pub fn named<'a>(scope: &Scope<'a>, name: &[u8]) -> Option<&'a Function>
    requires { HasFunctions scope.now.numbers 0 scope.now.functions.now }
    ensures { option_copied result ≡ named scope.now.functions.now name.now }
{
    match number_of(&scope.numbers, name) {
        Some(i) => at(scope.functions, i),
        None => None,
    }
}

fn declares_new(scope: &Scope<'_>, variables: &Names<'_>, before: &[Step], action: &Action) -> bool
    requires functions { HasFunctions scope.now.numbers 0 scope.now.functions.now }
    requires variables { Sees variables.now before.now }
    ensures { result ≡ declares_new scope.now.functions.now before.now action.now }
{
    match action {
        Action::Define { variable, .. } => {
            !is_declared(variables, before, variable.as_slice())
                && !has_name(scope, variable.as_slice())
        }
        Action::Text => true,
        Action::Call { .. } => true,
        Action::Assign { .. } => true,
    }
}

fn assigns_old(variables: &Names<'_>, before: &[Step], action: &Action) -> bool
    requires { Sees variables.now before.now }
    ensures { result ≡ assigns_old before.now action.now }
{
    match action {
        Action::Assign { variable, .. } => is_declared(variables, before, variable.as_slice()),
        Action::Text => true,
        Action::Call { .. } => true,
        Action::Define { .. } => true,
    }
}

fn reads_old(variables: &Names<'_>, before: &[Step], operand: &Operand) -> bool
    requires { Sees variables.now before.now }
    ensures { result ≡ reads_old before.now operand.now }
{
    match operand {
        Operand::Variable(name) => is_declared(variables, before, name.as_slice()),
        Operand::Step(_) => true,
    }
}

fn all_read_old(variables: &Names<'_>, before: &[Step], operands: &[Operand]) -> bool
    requires { Sees variables.now before.now }
    ensures { result ≡ list_all (reads_old before.now) operands.now }
{
    operands
        .iter()
        .all(|operand| reads_old(variables, before, operand))
}

fn calls_known(scope: &Scope<'_>, action: &Action) -> bool
    requires { HasFunctions scope.now.numbers 0 scope.now.functions.now }
    ensures { result ≡ calls_known scope.now.functions.now action.now }
{
    match action {
        Action::Call {
            function,
            arguments,
        } => match named(scope, function.as_slice()) {
            Some(found) => arguments.len() == found.parameters.len(),
            None => false,
        },
        Action::Text => true,
        Action::Define { .. } => true,
        Action::Assign { .. } => true,
    }
}

/// Whether the function of this name has a result.
pub fn has_result(scope: &Scope<'_>, name: &[u8]) -> bool
    requires { HasFunctions scope.now.numbers 0 scope.now.functions.now }
    ensures { result ≡ has_result (named scope.now.functions.now name.now) }
{
    match named(scope, name) {
        Some(found) => match found.returned {
            Returned::Nothing => false,
            Returned::Text => true,
            Returned::Parameter(_) => true,
        },
        None => false,
    }
}

fn action_gives(scope: &Scope<'_>, action: &Action) -> bool
    requires { HasFunctions scope.now.numbers 0 scope.now.functions.now }
    ensures { result ≡ action_gives scope.now.functions.now action.now }
{
    match action {
        Action::Call { function, .. } => has_result(scope, function.as_slice()),
        Action::Text => true,
        Action::Define { .. } => true,
        Action::Assign { .. } => true,
    }
}

fn uses_result(scope: &Scope<'_>, before: &[Step], operand: &Operand) -> bool
    requires { HasFunctions scope.now.numbers 0 scope.now.functions.now }
    ensures { result ≡ uses_result scope.now.functions.now before.now operand.now }
{
    match operand {
        Operand::Variable(_) => true,
        Operand::Step(i) => match before.get(*i) {
            Some(step) => action_gives(scope, &step.action),
            None => true,
        },
    }
}

fn all_use_results(scope: &Scope<'_>, before: &[Step], operands: &[Operand]) -> bool
    requires { HasFunctions scope.now.numbers 0 scope.now.functions.now }
    ensures { result ≡ list_all (uses_result scope.now.functions.now before.now) operands.now }
{
    operands
        .iter()
        .all(|operand| uses_result(scope, before, operand))
}

fn operands_fit(scope: &Scope<'_>, variables: &Names<'_>, before: &[Step], action: &Action) -> bool
    requires functions { HasFunctions scope.now.numbers 0 scope.now.functions.now }
    requires variables { Sees variables.now before.now }
    ensures { result ≡ (list_all (reads_old before.now) (operands_in action.now) && list_all (uses_result scope.now.functions.now before.now) (operands_in action.now)) }
{
    match action {
        Action::Text => true,
        Action::Call { arguments, .. } => {
            all_read_old(variables, before, arguments.as_slice())
                && all_use_results(scope, before, arguments.as_slice())
        }
        Action::Define { value, .. } | Action::Assign { value, .. } => {
            reads_old(variables, before, value) && uses_result(scope, before, value)
        }
    }
}

fn step_fits(scope: &Scope<'_>, variables: &Names<'_>, before: &[Step], action: &Action) -> bool
    requires functions { HasFunctions scope.now.numbers 0 scope.now.functions.now }
    requires variables { Sees variables.now before.now }
    ensures { result ≡ step_fits scope.now.functions.now before.now action.now }
{
    declares_new(scope, variables, before, action)
        && assigns_old(variables, before, action)
        && calls_known(scope, action)
        && operands_fit(scope, variables, before, action)
}

#[tactic(auto, using(crate::proofs::Checking::steps_fit_more, crate::proofs::Checking::steps_fit_all, crate::proofs::Tables::sees))]
fn all_steps_fit(scope: &Scope<'_>, variables: &Names<'_>, steps: &[Step]) -> bool
    requires functions { HasFunctions scope.now.numbers 0 scope.now.functions.now }
    requires variables { HasSteps variables.now 0 steps.now }
    ensures { result ≡ steps_fit scope.now.functions.now [] steps.now }
{
    for (i, step) in steps.iter().enumerate() {
        if !step_fits(scope, variables, &steps[..i], &step.action) {
            return false;
        }
    }
    true
}

/// Whether the names of main's steps meet the conditions.
#[tactic(auto, using(crate::proofs::Checking::fit))]
pub fn steps_fit(alloc: Global, scope: &Scope<'_>, steps: &[Step]) -> Result<bool, AllocError>
    requires { HasFunctions scope.now.numbers 0 scope.now.functions.now }
    ensures { IfOk result (λ b. IsTrue b ↔ StepsFit scope.now.functions.now steps.now) }
{
    let variables = step_numbers(alloc, steps)?;
    Ok(all_steps_fit(scope, &variables, steps))
}
