// The files of each package.
ghost use Rattle.std.specs.Prelude.{◌≡◌, ◌<◌, ◌≤◌, ◌+◌, ℕ, [], Some, length, slice_get, slice_index_or, IfOk};
ghost use Rattle.argot_names_rules.specs.Lists.{IsListOf};
ghost use Rattle.argot_names_packages.specs.Files.{IsFileFrom, AreFilesFrom};

use argot_links::Chains;
use argot_names_imports::leader_at;
use argot_text::Memory;
use std::alloc::Global;

// Puts the file first in the list of its package.
fn put(files: &mut Chains, leaders: &[Option<u32>], file: u32)
    requires small { length files.old.lists ≡ length leaders.now }
    requires room { 0 < files.old.spare }
    requires below { (l : ℕ) → slice_get leaders.now file ≡ Some (Some l) → l < length leaders.now }
    requires so_far { AreFilesFrom leaders.now (file + 1) files.old.lists }
    ensures small { length files.new.lists ≡ length leaders.now }
    ensures room { files.old.spare ≤ files.new.spare + 1 }
    ensures so_far { AreFilesFrom leaders.now file files.new.lists }
{
    match leader_at(leaders, file) {
        Some(first) => files.push(first, file),
        None => {}
    }
}

/// For each first file the files of its package, ascending.
pub fn files_of(alloc: Global, leaders: &[Option<u32>]) -> Result<Chains, Memory>
    requires { (file l : ℕ) → slice_get leaders.now file ≡ Some (Some l) → l < length leaders.now }
    ensures small { IfOk result (λ c. length c.lists ≡ length leaders.now) }
    ensures files { IfOk result (λ c. AreFilesFrom leaders.now 0 c.lists) }
{
    let Ok(count) = u32::try_from(leaders.len()) else {
        return Err(Memory);
    };
    let mut files = Chains::new(alloc, count)?;
    files.reserve(count)?;
    for before in 0..count {
        put(&mut files, leaders, count - before - 1);
    }
    Ok(files)
}

/// The files of the package with this first file, as a list.
pub fn list_of(alloc: Global, files: &Chains, first: u32) -> Result<Vec<u32>, Memory>
    requires { first < length files.now.lists }
    ensures { IfOk result (λ v. v.items ≡ slice_index_or files.now.lists first []) }
{
    let mut list = Vec::new(alloc);
    for file in files.walk(first) {
        list.push(file)?;
    }
    Ok(list)
}
