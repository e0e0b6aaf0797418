// The member of a package that a name behind a dot means.
ghost use Rattle.std.specs.Prelude.{◌≡◌, ℕ, List, Some, slice_get};
ghost use Rattle.argot_names_rules.specs.declared.package_key.PackageKey.{PackageKey};
ghost use Rattle.argot_names_rules.specs.Files.{SourceFiles};
ghost use Rattle.argot_names_imports.specs.declared.written.Written.{Written};
ghost use Rattle.argot_names_tops.specs.Tops.{AreTops};
ghost use Rattle.argot_names_uses.specs.Members.{IsImportOf, IsMemberMeant};

use argot_names_imports::{Reached, target_number};
use argot_names_tops::{PackageDecl, Tops, is_exported, top_meant};

/// The declaration that the package of an import exports under the name; none where it exports none. The import is one of
/// a file of a package that is reached. No memory.
pub fn member_meant(
    reached: &Reached,
    tops: &Tops,
    import: usize,
    name: &[u8],
) -> Option<PackageDecl>
    ensures { (h : SourceFiles) (main : List ℕ) (import_ : Written) → AreTops h main reached.now tops.now
        → IsImportOf h main reached.now import import_ → IsMemberMeant h import_.path name.now result }
{
    if !is_exported(name) {
        return None;
    }
    match target_number(reached, import) {
        Some(target) => top_meant(tops, target, name),
        None => None,
    }
}
