// The name in the package clause of a file.
ghost use Rattle.std.specs.Prelude.{◌≡◌, option_map, slice_get};
ghost use Rattle.argot_files.specs.Reading.{files_in};
ghost use Rattle.argot_names_imports.specs.Reads.{handed};
ghost use Rattle.argot_names_packages.specs.Clauses.{first_of, declared_at, clause_of, name_in};

use argot_files::Files;
use argot_names_imports::{bytes_at, node_at, nodes_at, spelled_at, tokens_at};
use argot_text::Sources;
use argot_tree::{Lexed, NodeKind, Tree, TreeNode};

// The first child of a node.
fn first_of(node: Option<TreeNode>) -> Option<u32>
    ensures { result ≡ first_of node }
{
    node?.first
}

// The token of a name that is declared.
fn declared_at(node: Option<TreeNode>) -> Option<u32>
    ensures { result ≡ declared_at node }
{
    let is = node?;
    match is.kind {
        NodeKind::DeclName => Some(is.token),
        _ => None,
    }
}

/// The token of the name in the package clause. No memory.
pub fn clause_token(nodes: &[TreeNode]) -> Option<u32>
    ensures { result ≡ clause_of nodes.now }
{
    match first_of(node_at(nodes, 0)) {
        Some(child) => declared_at(node_at(nodes, child as usize)),
        None => None,
    }
}

/// The name in the package clause of a file. No memory.
pub fn clause_name<'a>(files: &Files<'a>, file: u32) -> Option<&'a [u8]>
    ensures { option_map (λ r. r.now) result ≡ name_in (files_in files.now) file }
{
    match clause_token(nodes_at(files.trees, file)) {
        Some(token) => Some(spelled_at(
            bytes_at(files.sources, file),
            tokens_at(files.lexed, file),
            token,
        )),
        None => None,
    }
}
