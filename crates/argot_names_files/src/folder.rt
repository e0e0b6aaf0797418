// A folder's files with the texts of the library behind them.
ghost use Rattle.std.specs.Prelude.{◌≡◌, ◌<◌, ◌++◌, ◌∷◌, [], ◌^◌, length, IfOk, OnOk};
ghost use Rattle.argot_files.specs.Reading.{files_in};
ghost use Rattle.argot_names_imports.specs.Reads.{handed};
ghost use Rattle.argot_names_rules.specs.Agreeing.{library_path};
ghost use Rattle.argot_stubs.specs.Stubs.{HasStub};
ghost use Rattle.argot_names_files.specs.Files.{AreFiles};
ghost use Rattle.argot_names_files.specs.Reading.{HasTree, AreReadings};
ghost use Rattle.argot_names_files.specs.Library.{IsText, IsFolder};

use crate::library::library_path;
use crate::reading::{Readings, read_text};
use argot_files::Files;
use argot_stubs::stub;
use argot_text::{Memory, Sequence, Sources, Text};
use argot_tree::{Lexed, Tree};
use std::alloc::Global;

/// Files, and what was read of each.
#[derive(Debug, Drop)]
pub struct Folder {
    pub sources: Sources,
    pub lexed: Vec<Lexed>,
    pub trees: Vec<Tree>,
}

impl Folder {
    /// The files, for the calls on packages and names.
    pub fn files(&self) -> Files
        ensures { files_in result ≡ handed self.now.sources self.now.lexed.items self.now.trees.items }
    {
        Files {
            sources: &self.sources,
            lexed: self.lexed.as_slice(),
            trees: self.trees.as_slice(),
        }
    }
}

/// A text of the library under its path as a file, and what is read of it.
#[derive(Drop)]
pub struct Part {
    path: Text,
    bytes: Sequence<u8>,
    lexed: Lexed,
    tree: Tree,
}

// The path of a file that is a text of the library.
fn path_of(alloc: Global, path: &str) -> Result<Text, Memory>
    ensures { IfOk result (λ t. t ≡ library_path path.now) }
{
    let mut text = String::from_str(alloc, "stub:")?;
    text.push_str(path)?;
    Ok(Text::from_string(text))
}

// The text of the library at that path, with its tokens and its tree.
fn part_of(alloc: Global, path: &str) -> Result<Part, Memory>
    ensures { IfOk result (IsText path.now) }
{
    let Some(text) = stub(path) else {
        return Err(Memory);
    };
    if text.len() >= u32::MAX as usize {
        return Err(Memory);
    }
    let Ok((lexed, tree)) = read_text(alloc, 0, text.as_bytes()) else {
        return Err(Memory);
    };
    Ok(Part {
        path: path_of(alloc, path)?,
        bytes: Sequence::from_vec(text.as_bytes().to_vec(alloc)?),
        lexed,
        tree,
    })
}

/// Puts the texts of the library behind the files.
pub fn with_library(alloc: Global, sources: Sources, readings: Readings) -> Result<Folder, Memory>
    requires files { AreFiles sources }
    requires readings { AreReadings sources (length sources.paths) readings.lexed.items readings.trees.items }
    ensures { IfOk result (IsFolder sources) }
{
    let Sources {
        mut paths,
        contents,
        assembly,
        module,
        go_line,
    } = sources;
    let mut contents = contents.into_vec();
    let Readings {
        mut lexed,
        mut trees,
    } = readings;
    for k in 0..8 {
        let part = part_of(alloc, library_path(k))?;
        paths.push(part.path)?;
        contents.push(part.bytes)?;
        lexed.push(part.lexed)?;
        trees.push(part.tree)?;
    }
    Ok(Folder {
        sources: Sources {
            paths,
            contents: Sequence::from_vec(contents),
            assembly,
            module,
            go_line,
        },
        lexed,
        trees,
    })
}
