// What a name behind a dot stands for, by the package before the dot.
ghost use Rattle.std.specs.Prelude.{◌≡◌, ℕ, List, Some};
ghost use Rattle.argot_typed.specs.declared.program.Decl.{Decl};
ghost use Rattle.argot_names_rules.specs.declared.package_key.PackageKey.{PackageKey};
ghost use Rattle.argot_names_rules.specs.Files.{SourceFiles, read_of, text_at};
ghost use Rattle.argot_names_imports.specs.declared.written.Written.{Written};
ghost use Rattle.argot_names_blocks.specs.Listing.{IsMemberName};
ghost use Rattle.argot_names_tops.specs.Tops.{IsNamesOf, AreTops};
ghost use Rattle.argot_names_uses.specs.Packages.{StandsAt, IsPackageMeant};
ghost use Rattle.argot_names_uses.specs.Members.{IsImportOf, IsMemberMeant};
ghost use Rattle.argot_answers.specs.Answers.{Exactly};
ghost use Rattle.argot_names_uses.specs.Numbers.{StandsBy};
ghost use Rattle.argot_names_uses.specs.Known.{AreKnown};

use crate::known::{Known, number_at};
use crate::member_meant;
use argot_names_blocks::QualifiedName;
use argot_names_scopes::{FileNames, spelled_of};
use argot_names_tops::PackageDecl;

/// The declaration that the package before the dot exports under the name behind it; none where no package is meant there.
/// The file is one of a package that is reached. No memory.
pub fn member_of(
    known: &Known,
    names: &FileNames,
    dotted: QualifiedName,
    import: Option<usize>,
) -> Option<PackageDecl>
    ensures { (h : SourceFiles) (main : List ℕ) (file number : ℕ) (import_ : Written)
        → AreTops h main known.now.reached.now known.now.tops.now → IsNamesOf h file names.now
        → import ≡ Some number → IsImportOf h main known.now.reached.now number import_
        → IsMemberMeant h import_.path (text_at (read_of h file) dotted.member) result }
{
    match import {
        Some(number) => member_meant(
            known.reached,
            known.tops,
            number,
            spelled_of(names.bytes, names.tokens, dotted.member),
        ),
        None => None,
    }
}

/// The number of the declaration that the name behind the dot stands for, where it is this member of a package. The file is
/// one of a package that is reached. No memory.
pub fn member_number(
    known: &Known,
    names: &FileNames,
    dotted: QualifiedName,
    import: Option<usize>,
    member: Option<PackageDecl>,
) -> Option<u32>
    requires { IsMemberName names.now.tree.now.nodes dotted }
    ensures { (h : SourceFiles) (main : List ℕ) (home : PackageKey) (decls : List Decl) (file : ℕ)
        → AreKnown h main decls known.now
        → StandsAt h main known.now.reached.now home known.now.tops.now names.now file
        → IsPackageMeant h known.now.reached.now home file dotted.token import
        → ((number : ℕ) (w : Written) → import ≡ Some number → IsImportOf h main known.now.reached.now number w
        → IsMemberMeant h w.path (text_at (read_of h file) dotted.member) member)
        → Exactly (StandsBy h home decls file dotted.node) result }
{
    let Some(_) = import else {
        return None;
    };
    match member {
        Some(top) => number_at(known, top.file, top.node),
        None => None,
    }
}
