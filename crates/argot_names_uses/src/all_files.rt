// The uses of all files go into the table, and the first name that stands for nothing is found.
ghost use Rattle.std.specs.Prelude.{◌≡◌, ◌+◌, ◌<◌, ℕ, List, length};
ghost use Rattle.argot_typed.specs.declared.program.Decl.{Decl};
ghost use Rattle.argot_names_rules.specs.Files.{SourceFiles};
ghost use Rattle.argot_names_tops.specs.Tops.{AreTops};
ghost use Rattle.argot_names_uses.specs.Faults.{IsFirstNumber, UnresolvedIn};
ghost use Rattle.argot_names_uses.specs.Known.{AreKnown};
ghost use Rattle.argot_names_uses.specs.UseTables.{IsFilled, FilesBefore};
ghost use Rattle.argot_names_uses.specs.Firsts.{IsFirstBelow};

use crate::filling::fill_names;
use crate::known::Known;
use argot_names_imports::package_of;
use argot_names_tops::{Place, file_names};

// Puts down what the nodes of a file stand for, where it is one of a package that is reached; the first byte of the first name
// that stands for nothing.
fn fill_file(known: &Known, file: u32, table: &mut Vec<Option<u32>>) -> Option<u32>
    requires { (h : SourceFiles) × (main : List ℕ) × AreTops h main known.now.reached.now known.now.tops.now }
    ensures table { (h : SourceFiles) (main : List ℕ) (decls : List Decl) → AreKnown h main decls known.now
        → IsFilled h known.now.reached.now decls (FilesBefore file) table.old.items
        → IsFilled h known.now.reached.now decls (FilesBefore (file + 1)) table.new.items }
    ensures fault { (h : SourceFiles) (main : List ℕ) → AreTops h main known.now.reached.now known.now.tops.now
        → IsFirstNumber (UnresolvedIn h main file) result }
{
    let Some(package) = package_of(known.reached, file) else {
        return None;
    };
    match file_names(known.tops, file) {
        Some(names) => fill_names(known, names, package, file, table),
        None => None,
    }
}

// The place that was found in an earlier file, else that in this one.
fn earlier(first: Option<Place>, file: u32, offset: Option<u32>) -> Option<Place>
    ensures { (h : SourceFiles) (main : List ℕ) → IsFirstBelow h main file first
        → IsFirstNumber (UnresolvedIn h main file) offset → IsFirstBelow h main (file + 1) result }
{
    match first {
        Some(place) => Some(place),
        None => match offset {
            Some(offset) => Some(Place { file, offset }),
            None => None,
        },
    }
}

/// Puts down what the nodes of the first files stand for; the first place of a name that stands for nothing. No memory.
pub fn fill_files(known: &Known, files: u32, table: &mut Vec<Option<u32>>) -> Option<Place>
    requires { (h : SourceFiles) × (main : List ℕ) × AreTops h main known.now.reached.now known.now.tops.now }
    ensures table { (h : SourceFiles) (main : List ℕ) (decls : List Decl) → AreKnown h main decls known.now
        → IsFilled h known.now.reached.now decls (FilesBefore 0) table.old.items
        → IsFilled h known.now.reached.now decls (FilesBefore files) table.new.items }
    ensures first { (h : SourceFiles) (main : List ℕ) → AreTops h main known.now.reached.now known.now.tops.now
        → IsFirstBelow h main files result }
{
    let mut first = None;
    for file in 0..files {
        let offset = fill_file(known, file, table);
        first = earlier(first, file, offset);
    }
    first
}
