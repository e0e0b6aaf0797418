// Which targets count as one of a problem's functions.
ghost use Rattle.std.specs.Prelude.{◌≡◌, ◌<◌, length, slice_set, true, IfOk};
ghost use Rattle.argot_plain.specs.Counts.{stands_for, is_wrapper};
ghost use Rattle.argot_report.specs.Counted.{AreListed, AreMarks, is_marked};

use argot_plain::{Program, Role};
use argot_text::Memory;
use std::alloc::Global;

/// Marks the number, where there is such a one.
fn mark(marks: &mut Vec<bool>, h: u32)
    ensures { marks.new.items ≡ slice_set marks.old.items h true }
{
    let number = h as usize;
    if number < marks.len() {
        marks[number] = true;
    }
}

/// By function whether it stands in the list.
fn listed_in(alloc: Global, functions: usize, list: &[u32]) -> Result<Vec<bool>, Memory>
    ensures { IfOk result (λ v. AreListed functions list.now v.items) }
{
    let mut marks = vec![in alloc; false; functions]?;
    for h in list {
        mark(&mut marks, *h);
    }
    Ok(marks)
}

pub(crate) fn is_wrapper(role: &Role) -> bool
    ensures { result ≡ is_wrapper role.now }
{
    match role {
        Role::Wrapper => true,
        Role::Own | Role::Bound => false,
    }
}

/// The function as which a target counts.
fn stands_for(program: &Program, target: u32) -> Option<u32>
    requires { target < length program.now.functions }
    ensures { result ≡ stands_for program.now target }
{
    let function = program.function(target as usize);
    if is_wrapper(&function.role) {
        return function.wraps;
    }
    Some(target)
}

/// Whether the target counts as one of the functions that are marked.
fn counts(program: &Program, listed: &[bool], target: u32) -> bool
    requires { target < length program.now.functions }
    ensures { result ≡ is_marked (stands_for program.now target) listed.now }
{
    match stands_for(program, target) {
        Some(h) => match listed.get(h as usize) {
            Some(mark) => *mark,
            None => false,
        },
        None => false,
    }
}

/// By function whether it counts as one of these.
pub(crate) fn marks_of(alloc: Global, program: &Program, list: &[u32]) -> Result<Vec<bool>, Memory>
    ensures { IfOk result (λ v. AreMarks program.now list.now v.items) }
{
    let listed = listed_in(alloc, program.function_count(), list)?;
    let mut marks = Vec::new(alloc);
    for target in 0..program.function_count() as u32 {
        marks.push(counts(program, &listed, target))?;
    }
    Ok(marks)
}
