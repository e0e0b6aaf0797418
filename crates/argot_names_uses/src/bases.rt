// The numbers of nodes, through all trees.
ghost use Rattle.std.specs.Prelude.{◌≡◌, ◌<◌, ◌+◌, ◌^◌, Some, IfOk, IfSome, length, slice_get, take, List};
ghost use Rattle.argot_tree.specs.declared.tree.Tree.{Tree};
ghost use Rattle.argot_names_rules.specs.Loaded.{count_nodes};
ghost use Rattle.argot_names_uses.specs.Bases.{AreBases};

use argot_text::Memory;
use argot_tree::Tree;
use std::alloc::Global;

// The number with the nodes of a tree, where it is below 2^32.
fn with_nodes(count: u32, tree: &Tree) -> Option<u32>
    ensures { IfSome result (λ n. (n ≡ count + length tree.now.nodes) × (n < 2 ^ 32)) }
{
    let more = u32::try_from(tree.nodes.len()).ok()?;
    count.checked_add(more)
}

// The tree of this number.
fn tree_at(trees: &[Tree], file: usize) -> &Tree
    requires { file < length trees.now }
    ensures { slice_get trees.now file ≡ Some result.now }
{
    &trees[file]
}

/// For each file how many nodes stand in those before it, and at the end how many there are. Want of memory is answered too
/// where they are 2^32 or more.
pub fn node_bases(alloc: Global, trees: &[Tree]) -> Result<Vec<u32>, Memory>
    ensures { IfOk result (λ v. AreBases trees.now v.items) }
{
    let mut bases = Vec::new(alloc);
    let mut count = 0;
    bases.push(count)?;
    for file in 0..trees.len() {
        let Some(more) = with_nodes(count, tree_at(trees, file)) else {
            return Err(Memory);
        };
        count = more;
        bases.push(count)?;
    }
    Ok(bases)
}

/// How many nodes there are. No memory.
pub fn node_count(bases: &[u32]) -> u32
    ensures { (trees : List Tree) → AreBases trees bases.now → result ≡ count_nodes trees }
{
    match bases.last() {
        Some(count) => *count,
        None => 0,
    }
}

// The number at which a file begins.
fn base_at(bases: &[u32], file: u32) -> Option<u32>
    ensures { result ≡ slice_get bases.now file }
{
    bases.get(file as usize).copied()
}

// The sum, where it is below 2^32.
fn sum_of(base: u32, node: usize) -> Option<u32>
    ensures { base + node < 2 ^ 32 → result ≡ Some (base + node) }
{
    let sum = (base as usize).checked_add(node)?;
    u32::try_from(sum).ok()
}

/// The number of a node of a file. No memory.
pub fn node_number(bases: &[u32], file: u32, node: usize) -> Option<u32>
    ensures { (trees : List Tree) (tree : Tree) → AreBases trees bases.now → slice_get trees file ≡ Some tree
        → node < length tree.nodes → result ≡ Some (count_nodes (take file trees) + node) }
{
    match base_at(bases, file) {
        Some(base) => sum_of(base, node),
        None => None,
    }
}
