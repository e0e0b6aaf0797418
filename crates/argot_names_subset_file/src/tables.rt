// Tables by the number of a node among those of all trees.
ghost use Rattle.std.specs.Prelude.{◌≡◌, ◌↔◌, ◌<◌, ◌≤◌, IsTrue, IfOk, OnOk, length, slice_get, Some};
ghost use Rattle.argot_names_rules.specs.Loaded.{count_nodes};
ghost use Rattle.argot_names_rules.specs.Bindings.{specifies_type};
ghost use Rattle.argot_files.specs.Parents.{AreParents};
ghost use Rattle.argot_files.specs.Links.{IsLinked};
ghost use Rattle.argot_names_subset_file.specs.Tables.{IsTypeDeclared, AreTypesUpTo, AreTypes, AreLinked, AreBases};

use crate::links::parent_of;
use argot_files::parents_of;
use argot_names_imports::node_at;
use argot_text::Memory;
use argot_tree::{NodeKind, Tree, TreeNode};
use std::alloc::Global;

/// Whether a node of this kind declares a type.
fn specifies_type(kind: NodeKind) -> bool
    ensures { result ≡ specifies_type kind }
{
    matches!(kind, NodeKind::TypeSpec | NodeKind::AliasSpec)
}

/// Whether node k is the name of a type that is declared.
fn is_type_declared(nodes: &[TreeNode], parents: &[Option<usize>], k: usize) -> bool
    requires { AreParents nodes.now parents.now }
    ensures { IsTrue result ↔ IsTypeDeclared nodes.now k }
{
    let Some(node) = node_at(nodes, k) else {
        return false;
    };
    match node.kind {
        NodeKind::DeclName => match parent_of(nodes, parents, k) {
            Some(above) => specifies_type(above.node.kind),
            None => false,
        },
        _ => false,
    }
}

/// Puts behind the list for each node of a tree whether it is the name of a type that is declared.
fn push_types(alloc: Global, types: &mut Vec<bool>, tree: &Tree) -> Result<(), Memory>
    requires { IsLinked tree.now.nodes }
    ensures { OnOk result (AreTypesUpTo tree.now.nodes (length tree.now.nodes) types.old.items types.new.items) }
{
    let nodes = tree.nodes.as_slice();
    let parents = parents_of(alloc, nodes)?;
    for k in 0..nodes.len() {
        types.push(is_type_declared(nodes, &parents, k))?;
    }
    Ok(())
}

/// The tree of a file.
fn tree_at(trees: &[Tree], file: usize) -> &Tree
    requires { file < length trees.now }
    ensures { slice_get trees.now file ≡ Some result.now }
{
    &trees[file]
}

/// For each node of all trees whether it is the name of a type that is declared.
pub fn types_of(alloc: Global, trees: &[Tree]) -> Result<Vec<bool>, Memory>
    requires { AreLinked trees.now }
    ensures { IfOk result (λ v. AreTypes trees.now v.items) }
{
    let mut types = Vec::new(alloc);
    for file in 0..trees.len() {
        push_types(alloc, &mut types, tree_at(trees, file))?;
    }
    Ok(types)
}

/// How many nodes the trees before each file have.
pub fn bases_of(alloc: Global, trees: &[Tree]) -> Result<Vec<usize>, Memory>
    ensures { IfOk result (λ v. AreBases trees.now v.items) }
{
    let mut bases = Vec::new(alloc);
    let mut count: usize = 0;
    for file in 0..trees.len() {
        bases.push(count)?;
        match count.checked_add(tree_at(trees, file).nodes.len()) {
            Some(more) => count = more,
            None => return Err(Memory),
        }
    }
    Ok(bases)
}
