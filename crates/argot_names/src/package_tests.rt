// Folders of packages: which fault each has and where, what the packages are where there is none, and which texts of the
// library are named.
ghost use Rattle.std.specs.Prelude.{ℕ, List, IfOk, IfErr};
ghost use Rattle.argot_names_rules.specs.Agreeing.{Agrees, HasLibrary};
ghost use Rattle.argot_names_imports.specs.Reads.{handed};

use crate::stubs_named;
use argot_files::Files;
use argot_names_files::{Folder, ReadingFault, folder_of_texts, read_files, sources_of};
use argot_names_imports::{Reached, package_of, target_number};
use argot_names_packages::reach;
use argot_names_rules::NameFault;
use argot_text::{Memory, Sequence, Text, Texts};
use std::alloc::Global;
use std::test::Fail;

const MAIN: &str = "package main\n\nfunc main() {}\n";

// A fault, with the number of its file, its line and its column.
fn named(fault: NameFault) -> (&'static str, u32, u32, u32) {
    match fault {
        NameFault::NoMain => ("no main", 0, 0, 0),
        NameFault::TwoNames { at } => ("two names", at.file, at.line, at.col),
        NameFault::NoPackage { at } => ("no package", at.file, at.line, at.col),
        NameFault::ImportCycle { at } => ("cycle", at.file, at.line, at.col),
        NameFault::Redeclared { at } => ("redeclared", at.file, at.line, at.col),
        NameFault::Unresolved { at } => ("unresolved", at.file, at.line, at.col),
        NameFault::Memory => ("memory", 0, 0, 0),
    }
}

// The packages that the top folder leads to.
fn reach_in(alloc: Global, folder: &Folder) -> Result<Reached, NameFault>
    requires agrees { Agrees (handed folder.now.sources folder.now.lexed.items folder.now.trees.items) }
    requires library { (main : List ℕ)
        → HasLibrary (handed folder.now.sources folder.now.lexed.items folder.now.trees.items) main }
{
    reach(alloc, &folder.files(), "")
}

// What is wrong with the packages of a folder at its first place.
fn fault_of(alloc: Global, files: &[(&str, &str)]) -> (&'static str, u32, u32, u32) {
    match folder_of_texts(alloc, files, "m", None) {
        Ok(Some(folder)) => match reach_in(alloc, &folder) {
            Ok(_) => ("fine", 0, 0, 0),
            Err(fault) => named(fault),
        },
        Ok(None) => ("no folder", 0, 0, 0),
        Err(_) => ("not read", 0, 0, 0),
    }
}

#[test]
fn no_main_function(rt: HostRuntime) -> Result<(), Fail> {
    let alloc = rt.alloc();
    let wanted = ("no main", 0, 0, 0);
    assert_eq!(rt; fault_of(alloc, &[]), wanted);
    assert_eq!(rt; fault_of(alloc, &[("a/x.go", MAIN)]), wanted);
    let app = ("main.go", "package app\n\nfunc main() {}\n");
    assert_eq!(rt; fault_of(alloc, &[app]), wanted);
    let other = ("main.go", "package main\n\nfunc other() {}\n");
    assert_eq!(rt; fault_of(alloc, &[other]), wanted);
    let method = (
        "main.go",
        "package main\n\ntype t int\n\nfunc (t) main() {}\n",
    );
    assert_eq!(rt; fault_of(alloc, &[method]), wanted);
    let second = ("z.go", MAIN);
    assert_eq!(rt; fault_of(alloc, &[other, second]), ("fine", 0, 0, 0));
    Ok(())
}

#[test]
fn two_names_in_a_folder(rt: HostRuntime) -> Result<(), Fail> {
    let alloc = rt.alloc();
    let beside = [("a.go", MAIN), ("b.go", "\npackage other\n")];
    assert_eq!(rt; fault_of(alloc, &beside), ("two names", 1, 2, 1));
    let x = ("a/x.go", "package a\n");
    let y = ("a/y.go", "package b\n");
    let main = (
        "main.go",
        "package main\n\nimport \"m/a\"\n\nfunc main() {}\n",
    );
    assert_eq!(rt; fault_of(alloc, &[x, y, main]), ("two names", 1, 1, 1));
    assert_eq!(rt;
        fault_of(alloc, &[x, y, ("main.go", MAIN)]),
        ("fine", 0, 0, 0)
    );
    Ok(())
}

#[test]
fn import_that_finds_nothing(rt: HostRuntime) -> Result<(), Fail> {
    let alloc = rt.alloc();
    let nowhere = (
        "main.go",
        "package main\n\nimport \"nowhere\"\n\nfunc main() {}\n",
    );
    assert_eq!(rt; fault_of(alloc, &[nowhere]), ("no package", 0, 3, 8));
    let a = (
        "a/x.go",
        "package a\n\nimport (\n\t\"unsafe\"\n\n\tz \"m/c\"\n)\n",
    );
    let main = (
        "main.go",
        "package main\n\nimport (\n\t\"fmt\"\n\t\"m/a\"\n\t\"m/b\"\n)\n\nfunc main() {}\n",
    );
    assert_eq!(rt; fault_of(alloc, &[a, main]), ("no package", 0, 6, 4));
    let unreached = ("a/x.go", "package a\n\nimport \"nowhere\"\n");
    assert_eq!(rt;
        fault_of(alloc, &[unreached, ("main.go", MAIN)]),
        ("fine", 0, 0, 0)
    );
    Ok(())
}

#[test]
fn import_on_a_cycle(rt: HostRuntime) -> Result<(), Fail> {
    let alloc = rt.alloc();
    let main = (
        "main.go",
        "package main\n\nimport \"m/a\"\n\nfunc main() {}\n",
    );
    let a = ("a/x.go", "package a\n\nimport \"m/b\"\n");
    let b = ("b/x.go", "package b\n\nimport . \"m/a\"\n");
    assert_eq!(rt; fault_of(alloc, &[a, b, main]), ("cycle", 0, 3, 8));
    let alone = ("a/x.go", "package a\n\nimport z \"m/a\"\n");
    assert_eq!(rt; fault_of(alloc, &[alone, main]), ("cycle", 0, 3, 8));
    let back = ("a/x.go", "package a\n\nimport \"m\"\n");
    assert_eq!(rt; fault_of(alloc, &[back, main]), ("cycle", 0, 3, 8));
    assert_eq!(rt;
        fault_of(alloc, &[a, b, ("main.go", MAIN)]),
        ("fine", 0, 0, 0)
    );
    Ok(())
}

#[test]
fn the_first_fault_in_order(rt: HostRuntime) -> Result<(), Fail> {
    let alloc = rt.alloc();
    let a = ("a/x.go", "package a\n\nimport \"nowhere\"\nimport \"m\"\n");
    let main = (
        "main.go",
        "package main\n\nimport \"m/a\"\n\nfunc main() {}\n",
    );
    let n = ("n.go", "package n\n");
    assert_eq!(rt; fault_of(alloc, &[a, main, n]), ("two names", 2, 1, 1));
    assert_eq!(rt; fault_of(alloc, &[a, main]), ("no package", 0, 3, 8));
    let back = ("a/x.go", "package a\n\nimport \"m\"\n");
    let both = (
        "main.go",
        "package main\n\nimport \"m/a\"\nimport \"nowhere\"\n\nfunc main() {}\n",
    );
    assert_eq!(rt; fault_of(alloc, &[back, both]), ("no package", 1, 4, 8));
    Ok(())
}

// Whether the package of a file has this path, name and files.
fn is_package(reached: &Reached, file: u32, path: &str, name: &str, files: &[u32]) -> bool {
    let Some(k) = package_of(reached, file) else {
        return false;
    };
    match reached.packages.get(k as usize) {
        Some(is) => {
            is.path.as_str() == path && is.name.as_str() == name && is.files.as_slice() == files
        }
        None => false,
    }
}

// What is said of the packages of a folder: its own three, and two of the library.
fn packages_are(reached: &Reached) -> [bool; 8] {
    [
        reached.packages.len() == 5,
        is_package(reached, 3, "m", "main", &[3]),
        is_package(reached, 0, "m/a", "aa", &[0, 1]),
        is_package(reached, 1, "m/a", "aa", &[0, 1]),
        is_package(reached, 4, "x/y", "y", &[4]),
        package_of(reached, 3) == Some(0),
        package_of(reached, 2) == None,
        target_number(reached, 0) == package_of(reached, 0),
    ]
}

// The same of the folder of these files; none where it isn't read or something is wrong with it.
fn told_of(alloc: Global, files: &[(&str, &str)]) -> Option<[bool; 8]> {
    match folder_of_texts(alloc, files, "m", None) {
        Ok(Some(folder)) => match reach_in(alloc, &folder) {
            Ok(reached) => Some(packages_are(&reached)),
            Err(_) => None,
        },
        _ => None,
    }
}

#[test]
fn packages_that_are_reached(rt: HostRuntime) -> Result<(), Fail> {
    let files = [
        ("a/x.go", "package aa\n\nvar A = 1\n"),
        ("a/y.go", "package aa\n"),
        ("b/x.go", "package b\n"),
        (
            "main.go",
            "package main\n\nimport \"m/a\"\nimport \"fmt\"\nimport \"x/y\"\n\nfunc main() {}\n",
        ),
        ("stubs/x/y/y.go", "package y\n"),
    ];
    assert_eq!(rt; told_of(rt.alloc(), &files), Some([true; 8]));
    Ok(())
}

// A program that names four texts of the library, one of which names another.
const RUNNER: &str = "package main

import (
\t\"fmt\"
\t\"os\"
\t\"os/exec\"
\t\"strings\"
)

func main() {
\tline := fmt.Sprintf(\"run-%s\", strings.TrimSpace(os.Args[1]))
\tif err := exec.Command(line).Run(); err != nil {
\t\tfmt.Println(err)
\t}
}
";

// The texts are these.
fn are(texts: &Texts, wanted: &[&str]) -> bool {
    texts
        .as_slice()
        .iter()
        .map(|text| text.as_str())
        .eq(wanted.iter().copied())
}

// The bytes of one file.
fn contents_of(alloc: Global, text: &str) -> Result<Vec<Sequence<u8>>, Memory> {
    let mut contents = Vec::new(alloc);
    contents.push(Sequence::from_vec(text.as_bytes().to_vec(alloc)?))?;
    Ok(contents)
}

// The texts that a file names when none is handed over.
fn named_alone(alloc: Global, path: &str, text: &str) -> Result<Option<Texts>, ReadingFault> {
    let mut paths = Texts::new(alloc);
    paths.push(Text::from_str(alloc, path)?)?;
    let contents = contents_of(alloc, text)?;
    let module = Text::from_str(alloc, "m")?;
    let Some(sources) = sources_of(alloc, paths, contents, module, None)? else {
        return Ok(None);
    };
    let read = read_files(alloc, &sources)?;
    let files = Files {
        sources: &sources,
        lexed: read.lexed.as_slice(),
        trees: read.trees.as_slice(),
    };
    Ok(Some(stubs_named(alloc, &files, "")?))
}

// The texts that a file names when all are handed over.
fn named_among_all(alloc: Global, path: &str, text: &str) -> Result<Option<Texts>, ReadingFault> {
    let Some(folder) = folder_of_texts(alloc, &[(path, text)], "m", None)? else {
        return Ok(None);
    };
    Ok(Some(stubs_named(alloc, &folder.files(), "")?))
}

// Whether a call answered these texts.
fn answered(named: &Result<Option<Texts>, ReadingFault>, wanted: &[&str]) -> bool {
    match named {
        Ok(Some(texts)) => are(texts, wanted),
        _ => false,
    }
}

#[test]
fn texts_that_are_named(rt: HostRuntime) -> Result<(), Fail> {
    let alloc = rt.alloc();
    let alone = named_alone(alloc, "main.go", RUNNER);
    assert!(rt; answered(&alone, &["fmt", "os", "os/exec", "strings"]));
    let among_all = named_among_all(alloc, "main.go", RUNNER);
    assert!(rt; answered(&among_all, &["errors", "fmt", "os", "os/exec", "strings"]));
    let below = named_alone(alloc, "a/main.go", RUNNER);
    assert!(rt; answered(&below, &[]));
    Ok(())
}
