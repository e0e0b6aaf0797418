// The numbers of the declarations that names mean.
ghost use Rattle.std.specs.Prelude.{◌≡◌, ℕ, List, Some, slice_get};
ghost use Rattle.argot_typed.specs.declared.program.Decl.{Decl};
ghost use Rattle.argot_names_rules.specs.declared.package_key.PackageKey.{PackageKey};
ghost use Rattle.argot_names_rules.specs.Files.{SourceFiles};
ghost use Rattle.argot_names_rules.specs.Scopes.{Means};
ghost use Rattle.argot_names_imports.specs.declared.written.Written.{Written};
ghost use Rattle.argot_names_tops.specs.Meanings.{IsMeaning, MeansImport};
ghost use Rattle.argot_answers.specs.Answers.{Exactly};
ghost use Rattle.argot_names_uses.specs.Numbers.{IsMeantBy};
ghost use Rattle.argot_names_uses.specs.Known.{AreKnown};

use crate::known::{Known, number_at};
use argot_names_imports::Written;
use argot_names_tops::Meaning;

// The node of an import.
fn node_of(imports: &[Written], import: usize) -> Option<usize>
    ensures { (w : Written) → slice_get imports.now import ≡ Some w → result ≡ Some w.node }
{
    match imports.get(import) {
        Some(written) => Some(written.node as usize),
        None => None,
    }
}

// The number of the declaration that an import of the file is.
fn import_number(known: &Known, file: u32, import: usize) -> Option<u32>
    ensures { (h : SourceFiles) (main : List ℕ) (home : PackageKey) (decls : List Decl) (token : ℕ) (name : List ℕ)
        → AreKnown h main decls known.now → MeansImport h known.now.reached.now home file token name import
        → Exactly (IsMeantBy (Means h home file token name) h decls) result }
{
    match node_of(&known.reached.survey.imports, import) {
        Some(node) => number_at(known, file, node),
        None => None,
    }
}

/// The number of the declaration that a name of the file means, where it means one. No memory.
pub fn meant_number(known: &Known, file: u32, meaning: Meaning) -> Option<u32>
    ensures { (h : SourceFiles) (main : List ℕ) (home : PackageKey) (decls : List Decl) (token : ℕ) (name : List ℕ)
        → AreKnown h main decls known.now → IsMeaning h known.now.reached.now home file token name meaning
        → Exactly (IsMeantBy (Means h home file token name) h decls) result }
{
    match meaning {
        Meaning::Local(node) => number_at(known, file, node),
        Meaning::Import(import) => import_number(known, file, import),
        Meaning::PackageDecl(top) => number_at(known, top.file, top.node),
        Meaning::Predeclared(number) => Some(number),
        Meaning::Nothing => None,
    }
}
