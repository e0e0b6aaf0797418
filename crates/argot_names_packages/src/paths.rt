// The import path of a package, by the path of one of its files.
ghost use Rattle.std.specs.Prelude.{◌≡◌, ◌≢◌, ◌++◌, ◌∷◌, ℕ, List, [], true, codes, option_map, IfOk};
ghost use Rattle.argot_names_rules.specs.Packages.{FolderPath};
ghost use Rattle.argot_names_rules.specs.Agreeing.{is_go_file};
ghost use Rattle.argot_names_imports.specs.Keys.{key_of};
ghost use Rattle.argot_names_imports.specs.declared.firsts.Sort.TheVariants.{Libraries};
ghost use Rattle.argot_names_packages.specs.Paths.{stubs_of, IsPathBy};

use argot_names_imports::folder_of;
use argot_text::{Memory, Text};
use std::alloc::Global;

// The path ends in `.go`.
fn is_go(path: &str) -> bool
    ensures { result ≡ is_go_file path.now }
{
    path.ends_with(".go")
}

// What follows `stub:`.
fn text_path(path: &str) -> Option<&str>
    ensures { option_map (λ r. r.now) result ≡ key_of Libraries path.now }
{
    path.strip_prefix("stub:")
}

// What follows `stubs/`.
fn stub_path(folder: &str) -> Option<&str>
    ensures { option_map (λ r. r.now) result ≡ stubs_of folder.now }
{
    folder.strip_prefix("stubs/")
}

// The path of the folder at the top: the module's, or `main` where there is none.
fn top_path<'a>(module: &'a str) -> &'a str
    ensures { FolderPath module.now [] result.now }
{
    if module.is_empty() { "main" } else { module }
}

// The path of a folder further in.
fn inner_path(alloc: Global, module: &str, folder: &str) -> Result<Text, Memory>
    ensures { IfOk result (λ t. t ≡ module.now ++ 47 ∷ folder.now) }
{
    let mut path = String::from_str(alloc, module)?;
    path.push('/')?;
    path.push_str(folder)?;
    Ok(Text::from_string(path))
}

// The path of a folder that isn't below `stubs/`.
fn own_path(alloc: Global, module: &str, folder: &str) -> Result<Text, Memory>
    requires { (rest : List ℕ) → folder.now ≢ codes "stubs/" ++ rest }
    ensures { IfOk result (FolderPath module.now folder.now) }
{
    if folder.is_empty() {
        Text::from_str(alloc, top_path(module))
    } else {
        inner_path(alloc, module, folder)
    }
}

// The path of a folder: what follows `stubs/`, else the module's path, a slash and the folder.
fn folder_path(alloc: Global, module: &str, folder: &str) -> Result<Text, Memory>
    ensures { IfOk result (FolderPath module.now folder.now) }
{
    match stub_path(folder) {
        Some(path) => Text::from_str(alloc, path),
        None => own_path(alloc, module, folder),
    }
}

/// The import path of the package of a file, by the module's path and the file's.
pub fn path_of(alloc: Global, module: &str, path: &str) -> Result<Text, Memory>
    ensures { IfOk result (IsPathBy module.now path.now) }
{
    if is_go(path) {
        return folder_path(alloc, module, folder_of(path));
    }
    match text_path(path) {
        Some(rest) => Text::from_str(alloc, rest),
        None => Text::from_str(alloc, path),
    }
}
