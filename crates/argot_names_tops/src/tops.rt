// The package level of scopes, and looks into it.
ghost use Rattle.std.specs.Prelude.{◌≡◌, ℕ, List, Some, IfSome, IfNone, slice_get};
ghost use Rattle.argot_names_rules.specs.declared.package_key.PackageKey.{PackageKey};
ghost use Rattle.argot_names_rules.specs.Files.{SourceFiles, Place};
ghost use Rattle.argot_names_rules.specs.Imports.{IsReachedFile};
ghost use Rattle.argot_names_rules.specs.PackageScope.{IsTop, IsImported};
ghost use Rattle.argot_names_imports.specs.declared.reached.Reached.{Reached};
ghost use Rattle.argot_names_imports.specs.Reached.{homes_of};
ghost use Rattle.argot_names_imports.specs.Numbers.{IsOfNumber};
ghost use Rattle.argot_names_tops.specs.Tops.{IsNamesOf, AreTops};
ghost use Rattle.argot_names_tops.specs.Meant.{IsFirstTop, IsFirstImport};

use crate::entries::{Entry, first_item};
use crate::files::names_at;
use crate::named::Named;
use argot_names_scopes::FileNames;
use indexmap::IndexMap;

/// The names of the files of packages, what the packages declare outside functions, and the names that imports declare.
#[derive(Drop)]
pub struct Tops<'a> {
    /// By file; none for a file that is of no package that is reached.
    pub files: Vec<Option<FileNames<'a>>>,
    /// The declarations outside functions, by file and node; the scope is a package.
    pub tops: Vec<Named<'a>>,
    /// The names of imports, by file and node; the scope is a file.
    pub imports: Vec<Named<'a>>,
    /// By package and name.
    pub top_entries: IndexMap<(u32, &'a [u8]), Entry>,
    /// By file and name.
    pub import_entries: IndexMap<(u32, &'a [u8]), Entry>,
}

/// A declaration outside functions: its file and its node.
#[derive(Clone, Copy, Debug, PartialEq, Eq)]
pub struct PackageDecl {
    pub file: u32,
    pub node: usize,
}

/// The names of a file; none where the file is of no package that is reached. No memory.
pub fn file_names<'t, 'a>(tops: &'t Tops<'a>, file: u32) -> Option<&'t FileNames<'a>>
    ensures some { (h : SourceFiles) (main : List ℕ) (r : Reached) → AreTops h main r tops.now
        → IfSome result (λ n. IsNamesOf h file n.now × ((number : ℕ) × IsOfNumber h r file number)) }
    ensures none { (h : SourceFiles) (main : List ℕ) (r : Reached) (home : PackageKey) → AreTops h main r tops.now
        → IfNone result (IsReachedFile h main home file → ⊥) }
{
    names_at(&tops.files, file as usize)
}

/// The declaration outside functions that the name means in the package of this number; none where the package has none of
/// it. No memory.
pub fn top_meant(tops: &Tops, package: u32, name: &[u8]) -> Option<PackageDecl>
    ensures some { (h : SourceFiles) (main : List ℕ) (r : Reached) (home : PackageKey) → AreTops h main r tops.now
        → slice_get (homes_of h r) «package» ≡ Some home
        → IfSome result (λ t. IsFirstTop h home name.now t.file t.node) }
    ensures none { (h : SourceFiles) (main : List ℕ) (r : Reached) (home : PackageKey) (file node : ℕ) (place : Place)
        → AreTops h main r tops.now → slice_get (homes_of h r) «package» ≡ Some home
        → IfNone result (IsTop h home name.now file node place → ⊥) }
{
    match first_item(&tops.top_entries, &tops.tops, package, name) {
        Some(item) => Some(PackageDecl {
            file: item.place.file,
            node: item.of,
        }),
        None => None,
    }
}

/// The number of the import that the name means in the file; none where no import of the file declares it. No memory.
pub fn import_meant(tops: &Tops, file: u32, name: &[u8]) -> Option<usize>
    ensures some { (h : SourceFiles) (main : List ℕ) (r : Reached) → AreTops h main r tops.now
        → IfSome result (IsFirstImport h r file name.now) }
    ensures none { (h : SourceFiles) (main : List ℕ) (r : Reached) (home : PackageKey) (node : ℕ)
        (path : List ℕ) (place : Place)
        → AreTops h main r tops.now → IsReachedFile h main home file
        → IfNone result (IsImported h file name.now node path place → ⊥) }
{
    match first_item(&tops.import_entries, &tops.imports, file, name) {
        Some(item) => Some(item.of),
        None => None,
    }
}
