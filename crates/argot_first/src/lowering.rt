//! Main's steps as plain code.

ghost use Rattle.std.specs.Prelude.{◌≡◌, ◌+◌, ◌-◌, ◌<◌, ◌^◌, ◌++◌, [], ◌∷◌, IfOk, length, map};
ghost use Rattle.argot_first_form.specs.Names.{HasFunctions, HasSteps};
ghost use Rattle.argot_first.specs.Code.{variable, register, function_number, kind_of};
ghost use Rattle.argot_first.specs.Marks.{kinds_from};

use argot_first_form::{
    Action, Function, Names, Operand, Scope, Step, has_result, number_of, scope_of, step_numbers,
};
use argot_plain::first::Kind;
use argot_text::Memory;
use sqlite_items::Items;
use std::alloc::Global;

// Main's steps, with the numbers of the functions and of the variables that they name.
#[derive(Drop)]
struct Tables<'a> {
    scope: Scope<'a>,
    steps: &'a [Step],
    variables: Names<'a>,
}

// The register of the variable of this name.
fn variable(tables: &Tables<'_>, name: &[u8]) -> usize
    requires { HasSteps tables.now.variables 0 tables.now.steps.now }
    ensures { result ≡ variable tables.now.steps.now name.now }
{
    number_of(&tables.variables, name).unwrap_or(tables.steps.len())
}

fn register(tables: &Tables<'_>, operand: &Operand) -> usize
    requires { HasSteps tables.now.variables 0 tables.now.steps.now }
    ensures { result ≡ register tables.now.steps.now operand.now }
{
    match operand {
        Operand::Variable(name) => variable(tables, name.as_slice()),
        Operand::Step(number) => *number,
    }
}

fn registers(
    alloc: Global,
    tables: &Tables<'_>,
    operands: &[Operand],
) -> Result<Items<usize>, Memory>
    requires { HasSteps tables.now.variables 0 tables.now.steps.now }
    ensures { IfOk result (λ rs. rs ≡ map (register tables.now.steps.now) operands.now) }
{
    let mut numbers = Items::new(alloc);
    for operand in operands {
        numbers.push(register(tables, operand))?;
    }
    Ok(numbers)
}

fn function_number(scope: &Scope<'_>, name: &[u8]) -> usize
    requires few { length scope.now.functions.now < 2 ^ 64 - 1 }
    requires functions { HasFunctions scope.now.numbers 0 scope.now.functions.now }
    ensures { result ≡ function_number scope.now.functions.now name.now }
{
    number_of(&scope.numbers, name).unwrap_or(scope.functions.len()) + 1
}

fn one(alloc: Global, number: usize) -> Result<Items<usize>, Memory>
    ensures { IfOk result (λ it. it ≡ number ∷ []) }
{
    let mut items = Items::new(alloc);
    items.push(number)?;
    Ok(items)
}

fn kind_of(
    alloc: Global,
    tables: &Tables<'_>,
    number: usize,
    action: &Action,
) -> Result<Kind, Memory>
    requires few { length tables.now.scope.functions.now < 2 ^ 64 - 1 }
    requires functions { HasFunctions tables.now.scope.numbers 0 tables.now.scope.functions.now }
    requires variables { HasSteps tables.now.variables 0 tables.now.steps.now }
    ensures { IfOk result (λ kind. kind ≡ kind_of tables.now.scope.functions.now tables.now.steps.now number action.now) }
{
    match action {
        Action::Text => Ok(Kind::Op {
            to: number,
            from: Items::new(alloc),
        }),
        Action::Call {
            function,
            arguments,
        } => {
            let to = if has_result(&tables.scope, function.as_slice()) {
                one(alloc, number)?
            } else {
                Items::new(alloc)
            };
            let callee = function_number(&tables.scope, function.as_slice());
            let arguments = registers(alloc, tables, arguments.as_slice())?;
            Ok(Kind::Call {
                to,
                function: callee,
                arguments,
            })
        }
        Action::Define { value, .. } => Ok(Kind::Move {
            to: number,
            from: register(tables, value),
        }),
        Action::Assign {
            variable: name,
            value,
        } => Ok(Kind::Move {
            to: variable(tables, name.as_slice()),
            from: register(tables, value),
        }),
    }
}

// The kinds of these steps.
fn kinds_of(alloc: Global, tables: &Tables<'_>) -> Result<Vec<Kind>, Memory>
    requires few { length tables.now.scope.functions.now < 2 ^ 64 - 1 }
    requires functions { HasFunctions tables.now.scope.numbers 0 tables.now.scope.functions.now }
    requires variables { HasSteps tables.now.variables 0 tables.now.steps.now }
    ensures { IfOk result (λ kinds. kinds.items ≡ kinds_from tables.now.scope.functions.now tables.now.steps.now 0 tables.now.steps.now) }
{
    let mut kinds = Vec::new(alloc);
    for (i, step) in tables.steps.iter().enumerate() {
        kinds.push(kind_of(alloc, tables, i, &step.action)?)?;
    }
    Ok(kinds)
}

/// The kinds of main's steps.
pub fn lower(alloc: Global, functions: &[Function], steps: &[Step]) -> Result<Vec<Kind>, Memory>
    requires { length functions.now < 2 ^ 64 - 1 }
    ensures { IfOk result (λ kinds. kinds.items ≡ kinds_from functions.now steps.now 0 steps.now) }
{
    let scope = scope_of(alloc, functions)?;
    let variables = step_numbers(alloc, steps)?;
    kinds_of(
        alloc,
        &Tables {
            scope,
            steps,
            variables,
        },
    )
}
