// Reading tables by number.
ghost use Rattle.std.specs.Prelude.{◌≡◌, ◌<◌, Some, length, slice_get};
ghost use Rattle.argot_names_blocks.specs.Bringing.{found_at, found_in};

use crate::blocks::Block;
use argot_tree::TreeNode;

/// The nodes of a file, the tables that go with them by number (parents, children that are looked for, methods), and its
/// blocks.
#[derive(Clone, Copy)]
pub struct Tables<'a> {
    pub nodes: &'a [TreeNode],
    pub parents: &'a [Option<usize>],
    pub keys: &'a [Option<usize>],
    pub receivers: &'a [bool],
    pub blocks: &'a [Block],
}

/// A node with its number.
#[derive(Clone, Copy, Debug, PartialEq, Eq)]
pub struct Found {
    pub at: usize,
    pub node: TreeNode,
}

/// Node k.
pub fn node_at(nodes: &[TreeNode], k: usize) -> TreeNode
    requires { k < length nodes.now }
    ensures { slice_get nodes.now k ≡ Some result }
{
    nodes[k]
}

/// The node of this number, if there is one.
pub fn found_at(nodes: &[TreeNode], at: Option<usize>) -> Option<Found>
    ensures { result ≡ found_at nodes.now at }
{
    match at {
        Some(at) => match nodes.get(at) {
            Some(node) => Some(Found { at, node: *node }),
            None => None,
        },
        None => None,
    }
}

/// The node that the table has for number k, if there is one.
pub fn found_in(nodes: &[TreeNode], table: &[Option<usize>], k: usize) -> Option<Found>
    ensures { result ≡ found_in nodes.now table.now k }
{
    match table.get(k) {
        Some(at) => found_at(nodes, *at),
        None => None,
    }
}
