// The package that a name before a dot means.
ghost use Rattle.std.specs.Prelude.{◌≡◌, ℕ, List};
ghost use Rattle.argot_names_rules.specs.declared.package_key.PackageKey.{PackageKey};
ghost use Rattle.argot_names_rules.specs.Files.{SourceFiles};
ghost use Rattle.argot_names_imports.specs.declared.reached.Reached.{Reached};
ghost use Rattle.argot_names_scopes.specs.Names.{AreNames};
ghost use Rattle.argot_names_uses.specs.Packages.{StandsAt, IsPackageMeant};

use argot_names_scopes::{FileNames, meant_at, spelled_at};
use argot_names_tops::{Tops, import_meant};

/// The number of the import that the name at the token means in its file; none where it means none. No memory.
pub fn package_meant(tops: &Tops, names: &FileNames, file: u32, token: u32) -> Option<usize>
    requires { AreNames names.now }
    ensures { (h : SourceFiles) (main : List ℕ) (r : Reached) (home : PackageKey)
        → StandsAt h main r home tops.now names.now file → IsPackageMeant h r home file token result }
{
    let name = spelled_at(names.bytes, names.tokens, token);
    match meant_at(names, token, name) {
        Some(_) => None,
        None => import_meant(tops, file, name),
    }
}
