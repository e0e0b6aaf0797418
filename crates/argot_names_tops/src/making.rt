// The package level of scopes, made.
ghost use Rattle.std.specs.Prelude.{ℕ, List, IfOk};
ghost use Rattle.argot_names_rules.specs.Agreeing.{Agrees};
ghost use Rattle.argot_files.specs.Reading.{files_in};
ghost use Rattle.argot_names_imports.specs.Reads.{handed};
ghost use Rattle.argot_names_imports.specs.Reached.{IsReach};
ghost use Rattle.argot_names_tops.specs.Tops.{AreTops};

use crate::declared::declared_tops;
use crate::entries::entries_of;
use crate::files::files_of;
use crate::imported::imported_names;
use crate::tops::Tops;
use argot_files::Files;
use argot_names_imports::Reached;
use argot_text::{Memory, Sources};
use argot_tree::{Lexed, Tree};
use std::alloc::Global;

/// The names of the files of packages, what the packages declare outside functions, and the names that imports declare.
pub fn tops_of<'a>(
    alloc: Global,
    files: &Files<'a>,
    reached: &'a Reached,
) -> Result<Tops<'a>, Memory>
    requires { (main : List ℕ) × Agrees (files_in files.now) × IsReach (files_in files.now) main reached.now }
    ensures { (main : List ℕ) → IsReach (files_in files.now) main reached.now
        → IfOk result (AreTops (files_in files.now) main reached.now) }
{
    let names = files_of(alloc, files, reached)?;
    let tops = declared_tops(alloc, reached, &names)?;
    let imports = imported_names(alloc, files.sources, files.lexed, reached)?;
    let top_entries = entries_of(alloc, &tops)?;
    let import_entries = entries_of(alloc, &imports)?;
    Ok(Tops {
        files: names,
        tops,
        imports,
        top_entries,
        import_entries,
    })
}
