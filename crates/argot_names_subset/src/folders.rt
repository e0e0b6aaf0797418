// The folders of packages.
ghost use Rattle.std.specs.Prelude.{◌≡◌, ◌↔◌, ◌⊎◌, ℕ, nat_eq, List, Some, cond, length, option_map, slice_get, IfOk, OnOk};
ghost use Rattle.std.specs.Cmp.Lexicographic.{pointwise};
ghost use Rattle.argot_names_imports.specs.Firsts.{found_at};
ghost use Rattle.argot_names_subset.specs.Folders.{first_path, IsGoIn, IsFolderAt, IsFolderOf};
ghost use Rattle.argot_names_subset.specs.Others.{HasFolder};

use crate::packages::{ends_in_go, package_at};
use argot_names_imports::folder_of;
use argot_text::{Memory, Sources};
use argot_typed::Package;
use indexmap::IndexMap;
use std::alloc::Global;

/// The path of a file.
fn path_at(sources: &Sources, file: u32) -> Option<&str>
    ensures { option_map (λ p. p.now) result ≡ slice_get sources.now.paths file }
{
    match sources.paths.as_slice().get(file as usize) {
        Some(path) => Some(path.as_str()),
        None => None,
    }
}

/// The path of a package's first file.
fn first_path<'a>(sources: &'a Sources, package: &Package) -> Option<&'a str>
    ensures { option_map (λ p. p.now) result ≡ first_path sources.now «package».now }
{
    match package.files.as_slice().first() {
        Some(file) => path_at(sources, *file),
        None => None,
    }
}

/// Puts a folder into the table with a number.
fn put<'a>(
    folders: &mut IndexMap<&'a [u8], usize>,
    folder: &'a [u8],
    k: usize,
) -> Result<(), Memory>
    ensures { OnOk result ((q : List ℕ) → found_at folders.new q ≡ cond (pointwise nat_eq folder.now q)
        (Some k) (found_at folders.old q)) }
{
    folders.insert(folder, k)?;
    Ok(())
}

/// Puts the folder of a Go file into the table.
fn put_folder<'a>(
    folders: &mut IndexMap<&'a [u8], usize>,
    path: &'a str,
    k: usize,
) -> Result<(), Memory>
    ensures { OnOk result ((q : List ℕ) → HasFolder folders.new q ↔ (HasFolder folders.old q ⊎ IsGoIn path.now q)) }
{
    if ends_in_go(path) {
        return put(folders, folder_of(path).as_bytes(), k);
    }
    Ok(())
}

/// Puts the folder of a package into the table, where it has one.
fn put_package<'a>(
    folders: &mut IndexMap<&'a [u8], usize>,
    sources: &'a Sources,
    package: &Package,
    k: usize,
) -> Result<(), Memory>
    ensures { OnOk result ((q : List ℕ) → HasFolder folders.new q ↔
        (HasFolder folders.old q ⊎ IsFolderAt sources.now «package».now q)) }
{
    match first_path(sources, package) {
        Some(path) => put_folder(folders, path, k),
        None => Ok(()),
    }
}

/// The folders of the packages, each with its package's number.
pub fn folders_of<'a>(
    alloc: Global,
    sources: &'a Sources,
    packages: &[Package],
) -> Result<IndexMap<&'a [u8], usize>, Memory>
    ensures { IfOk result (λ m. (q : List ℕ) → HasFolder m q ↔ IsFolderOf sources.now packages.now q) }
{
    let mut folders = IndexMap::new(alloc);
    for k in 0..packages.len() {
        put_package(&mut folders, sources, package_at(packages, k), k)?;
    }
    Ok(folders)
}
