// The first file of each file's package.
ghost use Rattle.std.specs.Prelude.{◌≡◌, IfOk, map};
ghost use Rattle.argot_names_imports.specs.Leaders.{leader_of};

use crate::firsts::{Sort, key_of};
use argot_text::{Memory, Texts};
use indexmap::IndexMap;
use std::alloc::Global;

// The first file of the package of a file with this path, where it is of one.
fn leader_of(
    folders: &IndexMap<&[u8], u32>,
    libraries: &IndexMap<&[u8], u32>,
    path: &str,
) -> Option<u32>
    ensures { result ≡ leader_of folders.now libraries.now path.now }
{
    match key_of(Sort::Folders, path) {
        Some(folder) => folders.get(folder).copied(),
        None => {
            let library = key_of(Sort::Libraries, path)?;
            libraries.get(library).copied()
        }
    }
}

/// The first file of each file's package, where the file is of one.
pub fn leaders_of(
    alloc: Global,
    folders: &IndexMap<&[u8], u32>,
    libraries: &IndexMap<&[u8], u32>,
    paths: &Texts,
) -> Result<Vec<Option<u32>>, Memory>
    ensures { IfOk result (λ v. v.items ≡ map (leader_of folders.now libraries.now) paths.now) }
{
    let mut leaders = Vec::new(alloc);
    for file in 0..paths.len() {
        leaders.push(leader_of(folders, libraries, paths.get(file).as_str()))?;
    }
    Ok(leaders)
}
