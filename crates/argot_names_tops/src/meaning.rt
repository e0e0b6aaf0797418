// The declaration that a name means at a token.
ghost use Rattle.std.specs.Prelude.{◌≡◌, ℕ, List, Some, slice_get};
ghost use Rattle.argot_names_rules.specs.declared.package_key.PackageKey.{PackageKey};
ghost use Rattle.argot_names_rules.specs.Files.{SourceFiles};
ghost use Rattle.argot_names_rules.specs.Imports.{IsReachedFile};
ghost use Rattle.argot_names_scopes.specs.Names.{AreNames};
ghost use Rattle.argot_names_imports.specs.declared.reached.Reached.{Reached};
ghost use Rattle.argot_names_imports.specs.Reached.{homes_of};
ghost use Rattle.argot_names_tops.specs.Tops.{IsNamesOf, AreTops};
ghost use Rattle.argot_names_tops.specs.Meanings.{IsMeaning};

use crate::{PackageDecl, Tops, import_meant, predeclared_number, top_meant};
use argot_names_scopes::{FileNames, meant_at};

/// What a name means (Go specification: Declarations and scope).
#[derive(Clone, Copy, Debug, PartialEq, Eq)]
pub enum Meaning {
    /// A declaration in a function of the same file, by its node.
    Local(usize),
    /// A package, by the number of the import among those of all files.
    Import(usize),
    /// A declaration outside functions.
    PackageDecl(PackageDecl),
    /// A predeclared name, by its number.
    Predeclared(u32),
    /// No declaration of it is in scope.
    Nothing,
}

/// What the name means at the token of a file of the package of this number.
pub fn meaning_of(
    tops: &Tops,
    names: &FileNames,
    package: u32,
    file: u32,
    token: u32,
    name: &[u8],
) -> Meaning
    requires { AreNames names.now }
    ensures { (h : SourceFiles) (main : List ℕ) (r : Reached) (home : PackageKey) → AreTops h main r tops.now
        → IsNamesOf h file names.now → slice_get (homes_of h r) «package» ≡ Some home
        → IsReachedFile h main home file → IsMeaning h r home file token name.now result }
{
    if let Some(local) = meant_at(names, token, name) {
        return Meaning::Local(local.node);
    }
    if let Some(import) = import_meant(tops, file, name) {
        return Meaning::Import(import);
    }
    if let Some(top) = top_meant(tops, package, name) {
        return Meaning::PackageDecl(top);
    }
    match predeclared_number(name) {
        Some(number) => Meaning::Predeclared(number),
        None => Meaning::Nothing,
    }
}
