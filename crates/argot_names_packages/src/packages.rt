// What each package is.
ghost use Rattle.std.specs.Prelude.{◌≡◌, ◌<◌, ℕ, List, Some, length, slice_get, IfOk};
ghost use Rattle.argot_names_rules.specs.Agreeing.{Agrees};
ghost use Rattle.argot_names_rules.specs.Loaded.{IsPackage};
ghost use Rattle.argot_files.specs.Reading.{files_in};
ghost use Rattle.argot_names_imports.specs.Reads.{handed};
ghost use Rattle.argot_names_imports.specs.Surveyed.{IsSurvey};
ghost use Rattle.argot_names_imports.specs.Reached.{home_of};
ghost use Rattle.argot_names_packages.specs.Files.{AreFilesFrom};
ghost use Rattle.argot_names_packages.specs.Made.{IsPathAt, IsMade, AreMade, AreMadeUpTo};

use crate::files::{files_of, list_of};
use crate::names::name_of;
use crate::paths::path_of;
use argot_files::Files;
use argot_links::Chains;
use argot_names_imports::Survey;
use argot_text::{Memory, Sequence, Sources, Text};
use argot_tree::{Lexed, Tree};
use argot_typed::Package;
use std::alloc::Global;

// The import path of the package of a file; nothing where there is no such file.
fn file_path(alloc: Global, sources: &Sources, file: u32) -> Result<Text, Memory>
    ensures { IfOk result (λ t. IsPathAt sources.now file t) }
{
    match sources.paths.as_slice().get(file as usize) {
        Some(path) => path_of(alloc, sources.module.as_str(), path.as_str()),
        None => Text::from_str(alloc, ""),
    }
}

// The package with this first file.
fn package_at(alloc: Global, files: &Files, chains: &Chains, first: u32) -> Result<Package, Memory>
    requires { first < length chains.now.lists }
    ensures { IfOk result (IsMade (files_in files.now) chains.now.lists first) }
{
    let path = file_path(alloc, files.sources, first)?;
    let name = name_of(alloc, files, first)?;
    let files = list_of(alloc, chains, first)?;
    Ok(Package {
        path,
        name,
        files: Sequence::from_vec(files),
    })
}

// What each package is of these first files.
fn list_packages(
    alloc: Global,
    firsts: &[u32],
    files: &Files,
    chains: &Chains,
) -> Result<Vec<Package>, Memory>
    requires { (k first : ℕ) → slice_get firsts.now k ≡ Some first → first < length chains.now.lists }
    ensures as_many { IfOk result (λ v. length v.items ≡ length firsts.now) }
    ensures made { IfOk result (λ v. AreMadeUpTo (files_in files.now) firsts.now chains.now.lists v.items) }
{
    let mut packages = Vec::new(alloc);
    for k in 0..firsts.len() {
        packages.push(package_at(alloc, files, chains, firsts[k])?)?;
    }
    Ok(packages)
}

/// What each package is that is reached, in the order of their first files.
pub fn packages_of(alloc: Global, survey: &Survey, files: &Files) -> Result<Vec<Package>, Memory>
    requires leaders { (file l : ℕ) → slice_get survey.now.leaders.items file ≡ Some (Some l)
        → l < length survey.now.leaders.items }
    requires firsts { (k first : ℕ) → slice_get survey.now.reached.keys k ≡ Some first
        → first < length survey.now.leaders.items }
    ensures { IfOk result (λ v. AreMade (files_in files.now) survey.now v.items) }
{
    let firsts = survey.reached.as_slice();
    let Ok(_) = u32::try_from(firsts.len()) else {
        return Err(Memory);
    };
    let chains = files_of(alloc, &survey.leaders)?;
    list_packages(alloc, firsts, files, &chains)
}
