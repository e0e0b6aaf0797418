// The names that the imports of packages' files declare.
ghost use Rattle.std.specs.Prelude.{◌≡◌, ◌<◌, ℕ, List, Some, IfOk, IfSome, IfNone, length, slice_get};
ghost use Rattle.argot_tree.specs.declared.tree.Tree.{Tree};
ghost use Rattle.argot_names_imports.specs.declared.written.Written.{Written};
ghost use Rattle.argot_names_imports.specs.Reads.{handed};
ghost use Rattle.argot_names_imports.specs.Reached.{IsReach};
ghost use Rattle.argot_names_tops.specs.declared.named.Named.{Named};
ghost use Rattle.argot_names_tops.specs.ImportNames.{IsImportItem, GivesImport};
ghost use Rattle.argot_names_tops.specs.Importing.{AreImportNames};

use crate::declared_names::push_some;
use crate::imported_names::import_name;
use crate::named::Named;
use crate::texts::{is_blank, start_of};
use argot_files::Place;
use argot_names_imports::{Reached, bytes_at, import_at, package_of, tokens_at};
use argot_text::{Memory, Sources};
use argot_tree::{Lexed, Token};
use std::alloc::Global;

// The name of an import as an item of its file's scope; none where it is `_`.
fn import_item<'a>(
    tokens: &[Token],
    file: u32,
    at: u32,
    k: usize,
    name: &'a [u8],
) -> Option<Named<'a>>
    ensures some { IfSome result (IsImportItem tokens.now file at k name.now) }
    ensures none { IfNone result ((n : Named) → IsImportItem tokens.now file at k name.now n → ⊥) }
{
    if is_blank(name) {
        return None;
    }
    let offset = start_of(tokens, at)?;
    Some(Named {
        scope: file,
        name,
        place: Place { file, offset },
        of: k,
    })
}

// The name that import k declares, where it is of a package's file.
fn import_named<'a>(
    sources: &'a Sources,
    lexed: &'a [Lexed],
    reached: &'a Reached,
    k: usize,
) -> Option<Named<'a>>
    requires { k < length reached.now.survey.imports.items }
    ensures some { (trees : List Tree) (main : List ℕ) (w : Written)
        → IsReach (handed sources.now lexed.now trees) main reached.now
        → slice_get reached.now.survey.imports.items k ≡ Some w
        → IfSome result (GivesImport (handed sources.now lexed.now trees) reached.now k w) }
    ensures none { (trees : List Tree) (main : List ℕ) (w : Written) (n : Named)
        → IsReach (handed sources.now lexed.now trees) main reached.now
        → slice_get reached.now.survey.imports.items k ≡ Some w
        → IfNone result (GivesImport (handed sources.now lexed.now trees) reached.now k w n → ⊥) }
{
    let import = import_at(&reached.survey.imports, k);
    let tokens = tokens_at(lexed, import.file);
    match package_of(reached, import.file) {
        Some(_) => {
            match import_name(reached, k, import, bytes_at(sources, import.file), tokens) {
                Some(name) => import_item(tokens, import.file, import.at, k, name),
                None => None,
            }
        }
        None => None,
    }
}

/// The names of imports, by the imports' numbers; each item's scope is its file.
pub fn imported_names<'a>(
    alloc: Global,
    sources: &'a Sources,
    lexed: &'a [Lexed],
    reached: &'a Reached,
) -> Result<Vec<Named<'a>>, Memory>
    ensures { (trees : List Tree) (main : List ℕ) → IsReach (handed sources.now lexed.now trees) main reached.now
        → IfOk result (λ v. AreImportNames (handed sources.now lexed.now trees) reached.now v.items) }
{
    let mut out = Vec::new(alloc);
    for k in 0..reached.survey.imports.len() {
        push_some(&mut out, import_named(sources, lexed, reached, k))?;
    }
    Ok(out)
}
