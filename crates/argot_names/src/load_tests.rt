// What `load` answers for small folders: each fault of names, and each rule of blocks and scopes. The wanted answers are those
// of the reference program of the specification.
ghost use Rattle.std.specs.Prelude.{ℕ, List};
ghost use Rattle.argot_names_rules.specs.Agreeing.{Agrees, HasLibrary};
ghost use Rattle.argot_names_imports.specs.Reads.{handed};

use crate::archives::{case_of, head_of, wanted_of};
use crate::cases::{again, packages, scopes};
use crate::{NameFault, load};
use argot_names_files::{Folder, folder_of_texts};
use argot_text::{Pos, Texts};
use std::alloc::Global;
use std::fmt::Write;
use std::test::Fail;

// Where the fault is.
fn place_of(fault: &NameFault) -> Option<Pos> {
    match fault {
        NameFault::TwoNames { at } => Some(*at),
        NameFault::NoPackage { at } => Some(*at),
        NameFault::ImportCycle { at } => Some(*at),
        NameFault::Redeclared { at } => Some(*at),
        NameFault::Unresolved { at } => Some(*at),
        NameFault::NoMain => None,
        NameFault::Memory => None,
    }
}

/// The fault with its place, as a line.
pub fn line_of(alloc: Global, paths: &Texts, fault: &NameFault) -> Result<String, Fail> {
    let mut line = String::new(alloc);
    if let Some(at) = place_of(fault) {
        let path = match paths.as_slice().get(at.file as usize) {
            Some(path) => path.as_str(),
            None => "",
        };
        let row = at.line;
        let col = at.col;
        write!(line, "{path}:{row}:{col} ")?;
    }
    writeln!(line, "{fault}")?;
    Ok(line)
}

// What `load` tells of a folder.
fn loaded(alloc: Global, folder: &Folder) -> Result<String, Fail>
    requires agrees { Agrees (handed folder.now.sources folder.now.lexed.items folder.now.trees.items) }
    requires library { (main : List ℕ)
        → HasLibrary (handed folder.now.sources folder.now.lexed.items folder.now.trees.items) main }
{
    match load(alloc, &folder.files(), "") {
        Ok(_) => Ok(String::new(alloc)),
        Err(fault) => line_of(alloc, &folder.sources.paths, &fault),
    }
}

// What is told of these files.
fn told(alloc: Global, files: &[(&str, &str)], module: &str) -> Result<String, Fail> {
    match folder_of_texts(alloc, files, module, None) {
        Ok(Some(folder)) => loaded(alloc, &folder),
        _ => Ok(String::from_str(alloc, "not read\n")?),
    }
}

// The first case that isn't told as its comments say, with what is told of it; nothing where each is.
fn first_wrong(alloc: Global, cases: &str) -> Result<String, Fail> {
    for text in cases.split("\n== ").skip(1) {
        let case = case_of(alloc, text)?;
        let got = told(alloc, &case.files, head_of(&case, "module "))?;
        if got != wanted_of(alloc, &case)? {
            let mut wrong = String::from_str(alloc, case.name)?;
            wrong.push_str("\n")?;
            wrong.push_str(got.as_str())?;
            return Ok(wrong);
        }
    }
    Ok(String::new(alloc))
}

#[test]
fn packages_and_imports(rt: HostRuntime) -> Result<(), Fail> {
    let wrong = first_wrong(rt.alloc(), packages::CASES)?;
    assert_eq!(rt; wrong.as_str(), "");
    Ok(())
}

#[test]
fn names_declared_again(rt: HostRuntime) -> Result<(), Fail> {
    let wrong = first_wrong(rt.alloc(), again::CASES)?;
    assert_eq!(rt; wrong.as_str(), "");
    Ok(())
}

#[test]
fn names_in_scope(rt: HostRuntime) -> Result<(), Fail> {
    let wrong = first_wrong(rt.alloc(), scopes::CASES)?;
    assert_eq!(rt; wrong.as_str(), "");
    Ok(())
}
