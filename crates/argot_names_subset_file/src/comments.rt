// Imports of packages that are left out, and comments for the compiler.
ghost use Rattle.std.specs.Prelude.{◌≡◌, ◌↔◌, ◌++◌, IsTrue, OnOk, true, false, codes};
ghost use Rattle.argot_names_rules.specs.Subset.{LeavesOut, IsDirective, directive_at};
ghost use Rattle.argot_answers.specs.Answers.{Exactly};
ghost use Rattle.argot_names_subset_file.specs.Spots.{Adds};
ghost use Rattle.argot_names_subset_file.specs.Files.{IsImportOut, IsImportSome, IsDirected, IsDirectedSome};

use crate::notes::note_part;
use crate::parts::Part;
use crate::spots::{Spot, note};
use crate::view::View;
use argot_names_imports::{Written, import_at, imports_of};
use argot_names_module::line_at;
use argot_names_rules::Feature;
use argot_text::Memory;
use std::alloc::Global;
use std::collections::BTreeSet;

/// Whether the bytes are those of the word.
fn is_text(text: &[u8], word: &[u8]) -> bool
    ensures { IsTrue result ↔ (text.now ≡ word.now) }
{
    text == word
}

/// The feature of an import path that is left out.
fn left_out(path: &[u8]) -> Option<Feature>
    ensures { Exactly (LeavesOut path.now) result }
{
    if is_text(path, "unsafe".as_bytes()) {
        return Some(Feature::ImportUnsafe);
    }
    if is_text(path, "reflect".as_bytes()) {
        return Some(Feature::ImportReflect);
    }
    if is_text(path, "C".as_bytes()) {
        return Some(Feature::ImportC);
    }
    None
}

/// An import of a package that is left out, at its path.
fn import_part(import: &Written) -> Option<Part>
    ensures { Exactly (IsImportOut import.now.path import.now.path_at) result }
{
    match left_out(import.path.as_slice()) {
        Some(feature) => Some(Part {
            feature,
            token: import.path_at,
        }),
        None => None,
    }
}

/// Adds the imports of packages that are left out.
pub fn note_imports(alloc: Global, spots: &mut BTreeSet<Spot>, view: &View) -> Result<(), Memory>
    ensures { OnOk result (Adds (IsImportSome view.now) spots.old.keys spots.new.keys) }
{
    let file = view.file;
    let imports = imports_of(
        alloc,
        view.number,
        file.bytes(),
        file.tokens(),
        file.nodes(),
    )?;
    for k in 0..imports.len() {
        note_part(spots, view, import_part(import_at(&imports, k)))?;
    }
    Ok(())
}

/// Whether the text is the word, or begins with the word and a space.
fn is_directive(text: &[u8], word: &[u8], spaced: &[u8]) -> bool
    requires { spaced.now ≡ word.now ++ codes " " }
    ensures yes { result ≡ true → IsDirective word.now text.now }
    ensures no { result ≡ false → IsDirective word.now text.now → ⊥ }
{
    is_text(text, word) || text.starts_with(spaced)
}

/// Adds the feature where it is there.
fn note_if(
    spots: &mut BTreeSet<Spot>,
    holds: bool,
    feature: Feature,
    file: u32,
    offset: u32,
) -> Result<(), Memory>
    ensures { OnOk result (Adds (λ f p. (holds ≡ true) × (f ≡ feature) × (p ≡ record { file = file; offset = offset })) spots.old.keys spots.new.keys) }
{
    if holds {
        note(spots, feature, file, offset)?;
    }
    Ok(())
}

/// Adds what a comment for the compiler asks for.
fn note_directive(
    spots: &mut BTreeSet<Spot>,
    bytes: &[u8],
    file: u32,
    offset: u32,
) -> Result<(), Memory>
    ensures { OnOk result (Adds (IsDirected bytes.now file offset) spots.old.keys spots.new.keys) }
{
    let text = line_at(bytes, offset as usize);
    let linkname = is_directive(
        text,
        "//go:linkname".as_bytes(),
        "//go:linkname ".as_bytes(),
    );
    note_if(spots, linkname, Feature::Linkname, file, offset)?;
    let build = is_directive(text, "//go:build".as_bytes(), "//go:build ".as_bytes());
    note_if(spots, build, Feature::BuildLine, file, offset)?;
    let embed = is_directive(text, "//go:embed".as_bytes(), "//go:embed ".as_bytes());
    note_if(spots, embed, Feature::Embed, file, offset)
}

/// Adds what the comments for the compiler ask for, by their offsets.
pub fn note_directives(
    spots: &mut BTreeSet<Spot>,
    bytes: &[u8],
    file: u32,
    directives: &[u32],
) -> Result<(), Memory>
    ensures { OnOk result (Adds (IsDirectedSome bytes.now file directives.now) spots.old.keys spots.new.keys) }
{
    for k in 0..directives.len() {
        note_directive(spots, bytes, file, directives[k])?;
    }
    Ok(())
}
