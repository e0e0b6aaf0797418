// The texts of the library that a program names.
ghost use Rattle.std.specs.Prelude.{◌≡◌, ◌<◌, ◌++◌, ◌∷◌, [], ℕ, Some, length, slice_get, OnOk, IfOk, if◌then◌else◌};
ghost use Rattle.argot_names_rules.specs.Lists.{IsListOf};
ghost use Rattle.argot_names_rules.specs.Agreeing.{PathBefore};
ghost use Rattle.argot_names_rules.specs.Library.{AreNamed};
ghost use Rattle.argot_files.specs.Reading.{files_in};
ghost use Rattle.argot_names.specs.Paths.{library_paths};
ghost use Rattle.argot_names.specs.Naming.{IsNamedPath};

use crate::library::names;
use argot_files::Files;
use argot_names_imports::{Survey, survey_from};
use argot_text::{Memory, Text, Texts};
use std::alloc::Global;

// The paths of the library, in byte order.
fn library_path(k: usize) -> &'static str
    requires { k < 8 }
    ensures { slice_get library_paths k ≡ Some result.now }
{
    match k {
        0 => "errors",
        1 => "fmt",
        2 => "log",
        3 => "os",
        4 => "os/exec",
        5 => "strconv",
        6 => "strings",
        _ => "sync",
    }
}

// Puts the path last, where it is named.
fn push_named(alloc: Global, paths: &mut Texts, path: &str, named: bool) -> Result<(), Memory>
    ensures { OnOk result (paths.new ≡ paths.old ++ (if named then path.now ∷ [] else [])) }
{
    if named {
        paths.push(Text::from_str(alloc, path)?)?;
    }
    Ok(())
}

// The paths of the library that imports of reached packages name.
fn list_named(alloc: Global, survey: &Survey) -> Result<Texts, Memory>
    requires { length survey.now.founds.items ≡ length survey.now.imports.items }
    ensures { IfOk result (IsListOf PathBefore (IsNamedPath survey.now)) }
{
    let mut paths = Texts::new(alloc);
    for k in 0..8 {
        let path = library_path(k);
        push_named(alloc, &mut paths, path, names(survey, path.as_bytes()))?;
    }
    Ok(paths)
}

/// The paths of the library that an import of a reached package names, in byte order and each once, whether or not their
/// texts are among the files.
pub fn stubs_named(alloc: Global, files: &Files, main: &str) -> Result<Texts, Memory>
    ensures { IfOk result (AreNamed (files_in files.now) main.now) }
{
    match survey_from(alloc, files, main)? {
        Some(survey) => list_named(alloc, &survey),
        None => Ok(Texts::new(alloc)),
    }
}
