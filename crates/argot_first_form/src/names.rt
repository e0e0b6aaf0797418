//! Tables of names: for each name the number of the first place where it stands. They are filled from behind, so that
//! the first place stays.

ghost use Rattle.std.specs.Prelude.{◌≡◌, IfOk, OnOk, is_some, option_copied, ℕ, List, if◌then◌else◌, Some};
ghost use Rattle.std.specs.Str.{bytes_eq};
ghost use Rattle.argot_first_form.specs.Names.{number_at, HasFunctions, HasSteps};
ghost use Rattle.argot_first_form.specs.Form.{distinct, names_of};

use crate::functions::Function;
use crate::steps::{Action, Name, Step};
use std::alloc::{AllocError, Global};
use std::collections::HashMap;

/// The number of each name.
pub type Names<'a> = HashMap<&'a [u8], usize>;

/// Functions with the numbers of their names.
#[derive(Drop)]
pub struct Scope<'a> {
    /// The functions.
    pub functions: &'a [Function],
    /// The numbers of their names.
    pub numbers: Names<'a>,
}

/// The number of this name.
pub fn number_of(names: &Names<'_>, name: &[u8]) -> Option<usize>
    ensures { result ≡ number_at names.now name.now }
{
    names.get(&name).copied()
}

/// Whether the table has the name.
pub fn knows(names: &Names<'_>, name: &[u8]) -> bool
    ensures { result ≡ is_some (number_at names.now name.now) }
{
    names.contains_key(&name)
}

fn note<'a>(names: &mut Names<'a>, name: &'a [u8], number: usize) -> Result<(), AllocError>
    ensures { OnOk result ((q : List ℕ) → number_at names.new q ≡ (if bytes_eq name.now q then Some number else number_at names.old q)) }
{
    names.insert(name, number)?;
    Ok(())
}

// The numbers of the functions.
fn function_numbers<'a>(alloc: Global, functions: &'a [Function]) -> Result<Names<'a>, AllocError>
    ensures { IfOk result (λ names. HasFunctions names 0 functions.now) }
{
    let mut names = HashMap::new(alloc);
    let mut i = functions.len();
    while i > 0 {
        i -= 1;
        note(&mut names, functions[i].name.as_slice(), i)?;
    }
    Ok(names)
}

/// The functions with their numbers.
pub fn scope_of<'a>(alloc: Global, functions: &'a [Function]) -> Result<Scope<'a>, AllocError>
    ensures functions { IfOk result (λ scope. scope.functions.now ≡ functions.now) }
    ensures numbers { IfOk result (λ scope. HasFunctions scope.numbers 0 scope.functions.now) }
{
    let numbers = function_numbers(alloc, functions)?;
    Ok(Scope { functions, numbers })
}

/// The numbers of the steps that declare variables.
pub fn step_numbers<'a>(alloc: Global, steps: &'a [Step]) -> Result<Names<'a>, AllocError>
    ensures { IfOk result (λ names. HasSteps names 0 steps.now) }
{
    let mut names = HashMap::new(alloc);
    let mut i = steps.len();
    while i > 0 {
        i -= 1;
        match &steps[i].action {
            Action::Define { variable, .. } => note(&mut names, variable.as_slice(), i)?,
            Action::Text => {}
            Action::Call { .. } => {}
            Action::Assign { .. } => {}
        }
    }
    Ok(names)
}

/// Whether no two of the functions have one name.
pub fn functions_differ(alloc: Global, functions: &[Function]) -> Result<bool, AllocError>
    ensures { IfOk result (λ b. b ≡ distinct (names_of functions.now)) }
{
    let mut names = HashMap::new(alloc);
    let mut i = functions.len();
    while i > 0 {
        i -= 1;
        let name = functions[i].name.as_slice();
        if knows(&names, name) {
            return Ok(false);
        }
        note(&mut names, name, i)?;
    }
    Ok(true)
}

/// Whether no name stands among these twice.
pub fn names_differ(alloc: Global, all: &[Name]) -> Result<bool, AllocError>
    ensures { IfOk result (λ b. b ≡ distinct all.now) }
{
    let mut names = HashMap::new(alloc);
    let mut i = all.len();
    while i > 0 {
        i -= 1;
        let name = all[i].as_slice();
        if knows(&names, name) {
            return Ok(false);
        }
        note(&mut names, name, i)?;
    }
    Ok(true)
}
