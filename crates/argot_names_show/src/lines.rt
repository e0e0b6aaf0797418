// The lines: `package PATH NAME FILE..` for each package, `declaration PACKAGE PLACE NAME` for each of its declarations, and
// `use PLACE NAME PLACE` for each name, with the name and place of the declaration that it stands for; a predeclared name has
// `-` for its place. What stands in texts of the library has no line of its own.
ghost use Rattle.std.specs.Prelude.{◌<◌, IfSome, length};

use crate::places::place_of;
use argot_names_files::Folder;
use argot_text::{Memory, Out, Pos};
use argot_typed::{Decl, Package, Packages, Use};

// The place of a node, behind a space.
fn push_place(out: &mut Out, folder: &Folder, node: Option<u32>) -> Result<(), Memory> {
    out.push_str(" ")?;
    let Some(node) = node else {
        return out.push_str("-");
    };
    match place_of(folder, node) {
        Some(at) => out.push_pos(&folder.sources.paths, at),
        None => out.push_str("nowhere"),
    }
}

fn push_package(out: &mut Out, folder: &Folder, is: &Package) -> Result<(), Memory> {
    out.push_str("package ")?;
    out.push_str(is.path.as_str())?;
    out.push_str(" ")?;
    out.push_str(is.name.as_str())?;
    for file in is.files.as_slice() {
        out.push_str(" ")?;
        match folder.sources.paths.as_slice().get(*file as usize) {
            Some(path) => out.push_str(path.as_str())?,
            None => out.push_str("nowhere")?,
        }
    }
    out.push_str("\n")
}

// Where a node of the folder's own files stands.
fn own_place(folder: &Folder, node: u32) -> Option<Pos>
    ensures { IfSome result (λ at. at.file < length folder.now.sources.paths) }
{
    let at = place_of(folder, node)?;
    if folder
        .sources
        .paths
        .get(at.file as usize)
        .as_str()
        .starts_with("stub:")
    {
        return None;
    }
    Some(at)
}

// Those of packages alone: predeclared names have no line.
fn push_declaration(out: &mut Out, folder: &Folder, decl: &Decl) -> Result<(), Memory> {
    let (Some(package), Some(node)) = (decl.package, decl.node) else {
        return Ok(());
    };
    let Some(at) = own_place(folder, node) else {
        return Ok(());
    };
    out.push_str("declaration ")?;
    out.push_number(u64::from(package))?;
    out.push_str(" ")?;
    out.push_pos(&folder.sources.paths, at)?;
    out.push_str(" ")?;
    out.push_str(decl.name.as_str())?;
    out.push_str("\n")
}

fn push_use(out: &mut Out, folder: &Folder, decls: &[Decl], of: Use) -> Result<(), Memory> {
    let Some(at) = own_place(folder, of.node) else {
        return Ok(());
    };
    out.push_str("use ")?;
    out.push_pos(&folder.sources.paths, at)?;
    match decls.get(of.decl as usize) {
        Some(decl) => {
            out.push_str(" ")?;
            out.push_str(decl.name.as_str())?;
            push_place(out, folder, decl.node)?;
        }
        None => out.push_str(" nothing")?,
    }
    out.push_str("\n")
}

/// Adds the lines of packages, declarations and uses.
pub fn push_lines(out: &mut Out, folder: &Folder, packages: &Packages) -> Result<(), Memory> {
    for is in packages.packages.as_slice() {
        push_package(out, folder, is)?;
    }
    for decl in packages.decls.as_slice() {
        push_declaration(out, folder, decl)?;
    }
    for of in packages.uses.as_slice() {
        push_use(out, folder, packages.decls.as_slice(), *of)?;
    }
    Ok(())
}

fn push_size(out: &mut Out, word: &str, size: usize) -> Result<(), Memory> {
    out.push_str(word)?;
    out.push_str(" ")?;
    out.push_number(size as u64)?;
    out.push_str("\n")
}

/// Adds how many there are of each.
pub fn push_counts(out: &mut Out, packages: &Packages) -> Result<(), Memory> {
    push_size(out, "packages", packages.packages.len())?;
    push_size(out, "declarations", packages.decls.len())?;
    push_size(out, "uses", packages.uses.len())
}

/// Adds how many nodes the trees have.
pub fn push_nodes(out: &mut Out, folder: &Folder) -> Result<(), Memory> {
    let mut nodes = 0usize;
    for tree in &folder.trees {
        nodes = nodes.saturating_add(tree.nodes.len());
    }
    push_size(out, "nodes", nodes)
}
