// Assembly files in the folders of packages, and the `go` line of the module.
ghost use Rattle.std.specs.Prelude.{◌≡◌, ◌<◌, ◌^◌, ◌↔◌, ◌⊎◌, IsTrue, Some, List, ℕ, codes, true, false, length, slice_get, OnOk, IfOk};
ghost use Rattle.argot_names_rules.specs.declared.package_key.PackageKey.{PackageKey};
ghost use Rattle.argot_names_rules.specs.declared.package_key.PackageKey.TheVariants.{Folder};
ghost use Rattle.argot_names_rules.specs.Agreeing.{is_assembly, is_module_file};
ghost use Rattle.argot_names_rules.specs.Files.{SourceFiles, bytes_of};
ghost use Rattle.argot_names_rules.specs.Lists.{In};
ghost use Rattle.argot_names_rules.specs.Subset.{IsLater};
ghost use Rattle.argot_names_imports.specs.declared.firsts.Sort.TheVariants.{Folders};
ghost use Rattle.argot_names_imports.specs.Keys.{key_of};
ghost use Rattle.argot_names_imports.specs.Reads.{bytes_at};
ghost use Rattle.argot_names_subset_file.specs.Spots.{Adds};
ghost use Rattle.argot_names_subset.specs.Meanings.{ArePackageKeys};
ghost use Rattle.argot_names_subset.specs.Others.{HasFolder, IsAssemblyAt, IsGoLineAt, IsOtherAt, IsOther, IsLineAt};

use argot_names_imports::{bytes_at, folder_of};
use argot_names_module::first_line;
use argot_names_rules::Feature;
use argot_names_subset_file::{Spot, note};
use argot_text::{Memory, Sources};
use argot_typed::Package;
use indexmap::IndexMap;
use std::alloc::Global;
use std::collections::BTreeSet;

/// Whether the path ends in `.s`.
fn is_assembly(path: &str) -> bool
    ensures { result ≡ is_assembly path.now }
{
    path.ends_with(".s")
}

/// Whether the path is that of the module's file.
fn is_module_file(path: &str) -> bool
    ensures { IsTrue result ↔ (path.now ≡ codes "go.mod") }
{
    path == "go.mod"
}

/// Whether the numbers are those of Go 1.22 or later.
fn is_from(major: u32, minor: u32) -> bool
    ensures { IsTrue result ↔ IsLater (Some (major, minor)) }
{
    major > 1 || major == 1 && minor >= 22
}

/// Whether the numbers are there, and those of Go 1.22 or later.
fn is_later(go_line: Option<(u32, u32)>) -> bool
    ensures yes { result ≡ true → IsLater go_line }
    ensures no { result ≡ false → IsLater go_line → ⊥ }
{
    match go_line {
        Some((major, minor)) => is_from(major, minor),
        None => false,
    }
}

/// Whether the folder is in the table.
fn has_folder(folders: &IndexMap<&[u8], usize>, folder: &str) -> bool
    ensures yes { result ≡ true → HasFolder folders.now folder.now }
    ensures no { result ≡ false → HasFolder folders.now folder.now → ⊥ }
{
    folders.get(folder.as_bytes()).is_some()
}

/// Adds an assembly file whose folder is in the table.
fn note_assembly(
    spots: &mut BTreeSet<Spot>,
    folders: &IndexMap<&[u8], usize>,
    file: u32,
    path: &str,
) -> Result<(), Memory>
    ensures { OnOk result (Adds (IsAssemblyAt folders.now file path.now) spots.old.keys spots.new.keys) }
{
    if !is_assembly(path) {
        return Ok(());
    }
    if has_folder(folders, folder_of(path)) {
        return note(spots, Feature::AssemblyFile, file, 0);
    }
    Ok(())
}

/// Adds the `go` line of the bytes.
fn note_line(spots: &mut BTreeSet<Spot>, file: u32, bytes: &[u8]) -> Result<(), Memory>
    requires { length bytes.now < 2 ^ 63 }
    ensures { OnOk result (Adds (IsLineAt bytes.now file) spots.old.keys spots.new.keys) }
{
    match first_line(bytes, "go".as_bytes()) {
        Some(line) => match u32::try_from(line.offset) {
            Ok(offset) => note(spots, Feature::GoLine, file, offset),
            Err(_) => Err(Memory),
        },
        None => Ok(()),
    }
}

/// Adds the `go` line of the module's file, where it is too late.
fn note_go_line(
    spots: &mut BTreeSet<Spot>,
    sources: &Sources,
    file: u32,
    path: &str,
) -> Result<(), Memory>
    requires { length (bytes_at sources.now file) < 2 ^ 63 }
    ensures { OnOk result (Adds (IsGoLineAt sources.now file path.now) spots.old.keys spots.new.keys) }
{
    if !is_module_file(path) {
        return Ok(());
    }
    if is_later(sources.go_line) {
        return note_line(spots, file, bytes_at(sources, file));
    }
    Ok(())
}

/// Adds what is left out of a file as a whole.
fn note_other(
    spots: &mut BTreeSet<Spot>,
    sources: &Sources,
    folders: &IndexMap<&[u8], usize>,
    file: u32,
    path: &str,
) -> Result<(), Memory>
    requires { length (bytes_at sources.now file) < 2 ^ 63 }
    ensures { OnOk result (Adds (IsOtherAt sources.now folders.now file path.now) spots.old.keys spots.new.keys) }
{
    note_assembly(spots, folders, file, path)?;
    note_go_line(spots, sources, file, path)
}

/// Adds what is left out of files as a whole: assembly files in these folders, and the `go` line of the module's file.
pub fn note_others(
    spots: &mut BTreeSet<Spot>,
    sources: &Sources,
    folders: &IndexMap<&[u8], usize>,
) -> Result<(), Memory>
    requires { (file : ℕ) → length (bytes_at sources.now file) < 2 ^ 63 }
    ensures { OnOk result (Adds (IsOther sources.now folders.now) spots.old.keys spots.new.keys) }
{
    let Ok(count) = u32::try_from(sources.paths.len()) else {
        return Err(Memory);
    };
    for file in 0..count {
        let path = sources.paths.get(file as usize).as_str();
        note_other(spots, sources, folders, file, path)?;
    }
    Ok(())
}
