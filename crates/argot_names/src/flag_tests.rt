// What `flags` finds in small folders: each feature that is left out, where it stands, and what looks like it but isn't. The
// wanted flags are those of the reference program of the specification.
ghost use Rattle.std.specs.Prelude.{ℕ, List};
ghost use Rattle.argot_names_rules.specs.Agreeing.{Agrees, HasLibrary};
ghost use Rattle.argot_names_imports.specs.Reads.{handed};

use crate::archives::{Case, case_of, head_of, wanted_of};
use crate::cases::{left_out, smallest};
use crate::load_tests::line_of;
use crate::{Feature, Flag, flags, load};
use argot_names_files::{Folder, folder_of_texts};
use argot_text::{Sequence, Text, Texts};
use argot_tree::{Entries, Entry};
use std::alloc::Global;
use std::fmt::Write;
use std::test::Fail;

// The name of a feature in print.
fn name_of(feature: Feature) -> &'static str {
    match feature {
        Feature::ImportUnsafe => "import unsafe",
        Feature::ImportReflect => "import reflect",
        Feature::ImportC => "import C",
        Feature::DotImport => "dot import",
        Feature::AssemblyFile => "assembly file",
        Feature::Linkname => "linkname",
        Feature::BuildLine => "build line",
        Feature::Embed => "embed",
        Feature::TypeParameters => "type parameters",
        Feature::FloatingPointLiteral => "floating-point literal",
        Feature::ImaginaryLiteral => "imaginary literal",
        Feature::FloatingPointType => "floating-point type",
        Feature::ComplexType => "complex type",
        Feature::ComplexBuiltIn => "complex built-in",
        Feature::Uintptr => "uintptr",
        Feature::Comparable => "comparable",
        Feature::Recover => "recover",
        Feature::Goto => "goto",
        Feature::MethodExpression => "method expression",
        Feature::FunctionWithoutBody => "function without body",
        Feature::GoLine => "go line",
    }
}

// The flags, one behind the other.
fn lines_of(alloc: Global, paths: &Texts, list: &[Flag]) -> Result<String, Fail> {
    let mut lines = String::new(alloc);
    for flag in list {
        let path = match paths.as_slice().get(flag.at.file as usize) {
            Some(path) => path.as_str(),
            None => "",
        };
        let row = flag.at.line;
        let col = flag.at.col;
        let name = name_of(flag.feature);
        writeln!(lines, "{path}:{row}:{col} {name}")?;
    }
    Ok(lines)
}

// The entries that lines before the files name.
fn entries_of(alloc: Global, heads: &str) -> Result<Entries, Fail> {
    let mut entries = Vec::new(alloc);
    for line in heads.split('\n') {
        if let Some(item) = line.strip_prefix("entry ") {
            let mut parts = item.split(',');
            let package = Text::from_str(alloc, parts.next().unwrap_or(""))?;
            let receiver = Text::from_str(alloc, parts.next().unwrap_or(""))?;
            let name = Text::from_str(alloc, parts.next().unwrap_or(""))?;
            entries.push(Entry {
                package,
                receiver,
                name,
                flow: true,
            })?;
        }
    }
    Ok(Sequence::from_vec(entries))
}

// The numbers of a `go` line.
fn go_line_of(text: &str) -> Option<(u32, u32)> {
    let (major, minor) = text.split_once('.')?;
    Some((major.parse().ok()?, minor.parse().ok()?))
}

// What is told of a folder.
fn told_of(alloc: Global, folder: &Folder, entries: &Entries) -> Result<String, Fail>
    requires agrees { Agrees (handed folder.now.sources folder.now.lexed.items folder.now.trees.items) }
    requires library { (main : List ℕ)
        → HasLibrary (handed folder.now.sources folder.now.lexed.items folder.now.trees.items) main }
{
    let files = folder.files();
    match load(alloc, &files, "") {
        Ok(packages) => {
            let list = flags(alloc, &packages, &files, entries)?;
            lines_of(alloc, &folder.sources.paths, &list)
        }
        Err(fault) => line_of(alloc, &folder.sources.paths, &fault),
    }
}

// What is told of a case.
fn told(alloc: Global, case: &Case) -> Result<String, Fail> {
    let go_line = go_line_of(head_of(case, "go "));
    match folder_of_texts(alloc, &case.files, head_of(case, "module "), go_line) {
        Ok(Some(folder)) => told_of(alloc, &folder, &entries_of(alloc, case.heads)?),
        _ => Ok(String::from_str(alloc, "not read\n")?),
    }
}

// The first case that isn't told as its comments say, with what is told of it; nothing where each is.
fn first_wrong(alloc: Global, cases: &str) -> Result<String, Fail> {
    for text in cases.split("\n== ").skip(1) {
        let case = case_of(alloc, text)?;
        let got = told(alloc, &case)?;
        if got != wanted_of(alloc, &case)? {
            let mut wrong = String::from_str(alloc, case.name)?;
            wrong.push_str("\n")?;
            wrong.push_str(got.as_str())?;
            return Ok(wrong);
        }
    }
    Ok(String::new(alloc))
}

#[test]
fn each_feature_that_is_left_out(rt: HostRuntime) -> Result<(), Fail> {
    let wrong = first_wrong(rt.alloc(), left_out::CASES)?;
    assert_eq!(rt; wrong.as_str(), "");
    Ok(())
}

#[test]
fn each_smallest_program(rt: HostRuntime) -> Result<(), Fail> {
    let wrong = first_wrong(rt.alloc(), smallest::CASES)?;
    assert_eq!(rt; wrong.as_str(), "");
    Ok(())
}
