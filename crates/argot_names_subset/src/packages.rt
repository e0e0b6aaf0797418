// What is left out in the files of all packages.
ghost use Rattle.std.specs.Prelude.{◌≡◌, ◌<◌, Some, List, ℕ, option_map, if◌then◌else◌, None, length, slice_get, OnOk};
ghost use Rattle.argot_names_rules.specs.declared.package_key.PackageKey.{PackageKey};
ghost use Rattle.argot_names_rules.specs.Agreeing.{is_go_file};
ghost use Rattle.argot_names_rules.specs.Packages.{IsFileOf};
ghost use Rattle.argot_names_rules.specs.Lists.{In};
ghost use Rattle.argot_names_rules.specs.Loaded.{IsPackage};
ghost use Rattle.argot_names_imports.specs.Surveyed.{IsProper};
ghost use Rattle.argot_names_subset_file.specs.Spots.{Adds};
ghost use Rattle.argot_names_subset.specs.Inside.{IsInPackage, IsAmongKeys};
ghost use Rattle.argot_names_subset.specs.Meanings.{AreTables, IsPathOf, ArePackageKeys};
ghost use Rattle.argot_names_subset.specs.Known.{handed_of, IsKnown};
ghost use Rattle.argot_names_subset.specs.Files.{AddsPackage};

use crate::file::note_source;
use crate::known::Known;
use argot_names_subset_file::Spot;
use argot_text::{Memory, Sources};
use argot_typed::Package;
use std::alloc::Global;
use std::collections::BTreeSet;

/// Whether the path ends in `.go`.
pub fn ends_in_go(path: &str) -> bool
    ensures { result ≡ is_go_file path.now }
{
    path.ends_with(".go")
}

/// Whether the file's path ends in `.go`; the texts of the library have paths that don't.
fn is_go(sources: &Sources, file: u32) -> bool
    ensures { (path : List ℕ) → slice_get sources.now.paths file ≡ Some path → result ≡ is_go_file path }
{
    match sources.paths.as_slice().get(file as usize) {
        Some(path) => ends_in_go(path.as_str()),
        None => false,
    }
}

/// The import path of the file's package, where that is a folder.
fn path_of<'a>(sources: &Sources, package: &'a Package, file: u32) -> Option<&'a [u8]>
    ensures { (path : List ℕ) → slice_get sources.now.paths file ≡ Some path
        → option_map (λ p. p.now) result ≡ (if is_go_file path then Some «package».now.path else None) }
{
    if is_go(sources, file) {
        Some(package.path.as_str().as_bytes())
    } else {
        None
    }
}

/// File k of a package.
fn file_at(files: &[u32], k: usize) -> u32
    requires { k < length files.now }
    ensures { slice_get files.now k ≡ Some result }
{
    files[k]
}

/// Adds what is left out in the files of a package.
fn note_package<'a, 'e>(
    alloc: Global,
    spots: &mut BTreeSet<Spot>,
    known: &Known<'a, 'e>,
    package: &'a Package,
) -> Result<(), Memory>
    requires { IsKnown known.now }
    ensures { OnOk result (AddsPackage known.now «package».now spots.old.keys spots.new.keys) }
{
    let files = package.files.as_slice();
    for k in 0..files.len() {
        let file = file_at(files, k);
        let path = path_of(known.files.sources, package, file);
        note_source(alloc, spots, known, file, path)?;
    }
    Ok(())
}

/// Package k.
pub fn package_at(packages: &[Package], k: usize) -> &Package
    requires { k < length packages.now }
    ensures { slice_get packages.now k ≡ Some result.now }
{
    &packages[k]
}

/// Adds what is left out in the files of all packages.
pub fn note_packages<'a, 'e>(
    alloc: Global,
    spots: &mut BTreeSet<Spot>,
    known: &Known<'a, 'e>,
    packages: &'a [Package],
) -> Result<(), Memory>
    requires { IsKnown known.now }
    ensures { (homes : List PackageKey)
        → AreTables (handed_of known.now) homes known.now.named.now known.now.typed.now
        → ArePackageKeys (handed_of known.now) homes packages.now
        → OnOk result (Adds (IsAmongKeys (handed_of known.now) known.now.entries.now homes) spots.old.keys spots.new.keys) }
{
    for k in 0..packages.len() {
        note_package(alloc, spots, known, package_at(packages, k))?;
    }
    Ok(())
}
