// The functions of a program that matchers name.
ghost use Rattle.std.specs.Prelude.{◌≡◌, ◌<◌, ◌^◌, ◌||◌, IfOk, OnOk, length};
ghost use Rattle.argot_config.specs.Asking.{AreFunctions};
ghost use Rattle.argot_config.specs.Looking.{finds_function, is_found, seeks, three_in};
ghost use Rattle.argot_config.specs.Matching.{looks_at_functions as kind_looks_at_functions};
ghost use Rattle.argot_config.specs.Marking.{Gathers, IsMarked, MarksMore};
ghost use Rattle.argot_config.specs.Packages.{ArePackages, path_of};

use crate::looking::Look;
use crate::packages::Packages;
use argot_config_read::{MatchKind, Matcher};
use argot_plain::{Ident, Program};
use argot_text::Sequence;
use std::alloc::{AllocError, Global};

/// The numbers of the functions that one of the matchers names, ascending.
pub(crate) fn functions(
    alloc: Global,
    matchers: &[Matcher],
    program: &Program,
    packages: &Packages<'_>,
) -> Result<Sequence<u32>, AllocError>
    requires { ArePackages program.now packages.now }
    ensures { IfOk result (AreFunctions program.now matchers.now) }
{
    let mut marks = vec![in alloc; false; program.function_count()]?;
    for matcher in matchers {
        mark(alloc, matcher, program, packages, marks.as_mut_slice())?;
    }
    let found = numbers(alloc, marks.as_slice())?;
    Ok(Sequence::from_vec(found))
}

// Marks the functions that the matcher names.
fn mark(
    alloc: Global,
    matcher: &Matcher,
    program: &Program,
    packages: &Packages<'_>,
    marks: &mut [bool],
) -> Result<(), AllocError>
    requires marks { length marks.old ≡ length program.now.functions }
    requires packages { ArePackages program.now packages.now }
    ensures same_length { length marks.new ≡ length marks.old }
    ensures marked { OnOk result (MarksMore program.now matcher.now marks.old marks.new) }
{
    if !looks_at_functions(matcher.kind) {
        return Ok(());
    }
    let mut look = Look::new(alloc, matcher)?;
    let passing = look.passing(alloc, packages.paths.as_slice())?;
    for g in 0..program.function_count() {
        let passes = packages.at(&passing, g);
        let mark = is_marked(&mut look, passes, &program.function(g).ident, marks[g]);
        marks[g] = mark;
    }
    Ok(())
}

fn looks_at_functions(kind: MatchKind) -> bool
    ensures { result ≡ kind_looks_at_functions kind }
{
    match kind {
        MatchKind::Func => true,
        MatchKind::Field | MatchKind::Global => false,
    }
}

// The mark of a function, with what the look finds. It is known whether the path of the function's package passes, so that
// of other packages' functions the look sees nothing.
fn is_marked(look: &mut Look<'_>, passes: bool, ident: &Option<Ident>, mark: bool) -> bool
    requires { passes ≡ is_found (seeks look.old.package) (path_of ident.now) }
    ensures found { result ≡ (mark || finds_function (three_in look.old) ident.now) }
    ensures same { three_in look.new ≡ three_in look.old }
{
    if mark || !passes {
        return mark;
    }
    match ident {
        Some(ident) => look.finds(ident),
        None => false,
    }
}

// The numbers of the marks.
fn numbers(alloc: Global, marks: &[bool]) -> Result<Vec<u32>, AllocError>
    requires { length marks.now < 2 ^ 32 }
    ensures { IfOk result (λ found. Gathers (λ g. g) (IsMarked marks.now) (length marks.now) found.items) }
{
    let mut found = Vec::new(alloc);
    for g in 0..marks.len() {
        if marks[g] {
            found.push(g as u32)?;
        }
    }
    Ok(found)
}
