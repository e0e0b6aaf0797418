// What the path of each import finds.
ghost use Rattle.std.specs.Prelude.{◌≡◌, ◌<◌, Some, IfOk, length, slice_get};
ghost use Rattle.argot_names_rules.specs.Files.{SourceFiles};
ghost use Rattle.argot_names_imports.specs.Found.{HasTables};
ghost use Rattle.argot_names_imports.specs.Founds.{AreFounds};

use crate::find::{Found, find};
use crate::written::Written;
use argot_text::Memory;
use indexmap::IndexMap;
use std::alloc::Global;

/// The import of this number. No memory.
pub fn import_at(imports: &[Written], k: usize) -> &Written
    requires { k < length imports.now }
    ensures { slice_get imports.now k ≡ Some result.now }
{
    &imports[k]
}

/// What the path of each import finds, in the order of the imports.
pub fn founds_of(
    alloc: Global,
    folders: &IndexMap<&[u8], u32>,
    libraries: &IndexMap<&[u8], u32>,
    module: &[u8],
    imports: &[Written],
) -> Result<Vec<Found>, Memory>
    ensures { (h : SourceFiles) → HasTables h module.now folders.now libraries.now → IfOk result (λ v. AreFounds h imports.now v.items) }
{
    let mut founds = Vec::new(alloc);
    for k in 0..imports.len() {
        let found = find(
            alloc,
            folders,
            libraries,
            module,
            import_at(imports, k).path.as_slice(),
        )?;
        founds.push(found)?;
    }
    Ok(founds)
}
