// The declarations outside functions of all packages that are reached.
ghost use Rattle.std.specs.Prelude.{◌≡◌, ℕ, List, Some, IfOk, IfSome, IfNone, slice_get};
ghost use Rattle.argot_names_rules.specs.Files.{SourceFiles};
ghost use Rattle.argot_names_scopes.specs.declared.file.FileNames.{FileNames};
ghost use Rattle.argot_names_imports.specs.Reached.{homes_of, IsReach};
ghost use Rattle.argot_names_tops.specs.Declaring.{AreDeclaredIn, AreDeclared};
ghost use Rattle.argot_names_tops.specs.Tops.{AreFiles};

use crate::declared_names::scoped_tops;
use crate::files::names_at;
use crate::named::Named;
use argot_names_imports::{Reached, package_of};
use argot_names_scopes::FileNames;
use argot_text::Memory;
use std::alloc::Global;

// Those of one file; nothing where it is of no package.
fn declared_in<'a>(
    alloc: Global,
    reached: &Reached,
    files: &[Option<FileNames<'a>>],
    file: u32,
) -> Result<Vec<Named<'a>>, Memory>
    ensures { (h : SourceFiles) (main : List ℕ) → IsReach h main reached.now → AreFiles h reached.now files.now
        → IfOk result (λ v. AreDeclaredIn h (homes_of h reached.now) file v.items) }
{
    let Some(number) = package_of(reached, file) else {
        return Ok(Vec::new(alloc));
    };
    match names_at(files, file as usize) {
        Some(names) => scoped_tops(
            alloc,
            names.bytes,
            names.tokens,
            number,
            file,
            &names.bindings.tops,
        ),
        None => Ok(Vec::new(alloc)),
    }
}

/// The declarations outside functions, by file and node; each item's scope is its package.
pub fn declared_tops<'a>(
    alloc: Global,
    reached: &Reached,
    files: &[Option<FileNames<'a>>],
) -> Result<Vec<Named<'a>>, Memory>
    ensures { (h : SourceFiles) (main : List ℕ) → IsReach h main reached.now → AreFiles h reached.now files.now
        → IfOk result (λ v. AreDeclared h (homes_of h reached.now) v.items) }
{
    let Ok(count) = u32::try_from(files.len()) else {
        return Err(Memory);
    };
    let mut all = Vec::new(alloc);
    for file in 0..count {
        let mut tops = declared_in(alloc, reached, files, file)?;
        all.append(&mut tops)?;
    }
    Ok(all)
}
