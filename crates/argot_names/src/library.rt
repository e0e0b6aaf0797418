// Whether an import of a package that is reached finds a text of the library.
ghost use Rattle.std.specs.Prelude.{◌≡◌, ◌<◌, ℕ, true, false, length};
ghost use Rattle.argot_names_rules.specs.Lists.{In};
ghost use Rattle.argot_names.specs.Naming.{is_library, IsReachedLeader, NamesAt};

use argot_names_imports::{Found, Survey, found_at, import_at, leader_at};
use indexmap::IndexSet;

// The number is one of these.
fn has(numbers: &IndexSet<u32>, number: u32) -> bool
    ensures yes { result ≡ true → In number numbers.now.keys }
    ensures no { result ≡ false → In number numbers.now.keys → ⊥ }
{
    numbers.contains(&number)
}

// The file is of a package that is reached.
fn is_reached(survey: &Survey, file: u32) -> bool
    ensures yes { result ≡ true → IsReachedLeader survey.now file }
    ensures no { result ≡ false → IsReachedLeader survey.now file → ⊥ }
{
    match leader_at(&survey.leaders, file) {
        Some(first) => has(&survey.reached, first),
        None => false,
    }
}

// A text of the library is found.
fn is_library(found: Found) -> bool
    ensures { result ≡ is_library found }
{
    match found {
        Found::Library(_) => true,
        Found::Folder(_) => false,
        Found::LeftOut => false,
        Found::Nothing => false,
    }
}

// The import of this number names the library's text at this path.
fn names_at(survey: &Survey, k: usize, path: &[u8]) -> bool
    requires imports { k < length survey.now.imports.items }
    requires founds { k < length survey.now.founds.items }
    ensures yes { result ≡ true → NamesAt survey.now path.now k }
    ensures no { result ≡ false → NamesAt survey.now path.now k → ⊥ }
{
    let import = import_at(&survey.imports, k);
    if !is_library(found_at(&survey.founds, k)) {
        return false;
    }
    if import.path.as_slice() != path {
        return false;
    }
    is_reached(survey, import.file)
}

/// Some import of a package that is reached names the library's text at this path. No memory.
pub fn names(survey: &Survey, path: &[u8]) -> bool
    requires { length survey.now.founds.items ≡ length survey.now.imports.items }
    ensures yes { result ≡ true → (k : ℕ) × NamesAt survey.now path.now k }
    ensures no { result ≡ false → (k : ℕ) → NamesAt survey.now path.now k → ⊥ }
{
    for k in 0..survey.imports.len() {
        if names_at(survey, k, path) {
            return true;
        }
    }
    false
}
