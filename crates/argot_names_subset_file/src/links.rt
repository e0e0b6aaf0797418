// Parents and links of nodes.
ghost use Rattle.std.specs.Prelude.{◌≡◌, ◌↔◌, IsTrue, Some};
ghost use Rattle.argot_names_rules.specs.Uses.{IsKey};
ghost use Rattle.argot_files.specs.Parents.{AreParents};
ghost use Rattle.argot_answers.specs.Answers.{Exactly};
ghost use Rattle.argot_names_subset_file.specs.Atoms.{IsAbove};

use argot_files::File;
use argot_names_blocks::{Found, is_key};
use argot_names_imports::node_at;
use argot_tree::TreeNode;

/// The parent of node k, with its number.
pub fn parent_of(nodes: &[TreeNode], parents: &[Option<usize>], k: usize) -> Option<Found>
    requires { AreParents nodes.now parents.now }
    ensures { Exactly (IsAbove nodes.now k) result }
{
    match parents.get(k) {
        Some(parent) => match *parent {
            Some(at) => match node_at(nodes, at) {
                Some(node) => Some(Found { at, node }),
                None => None,
            },
            None => None,
        },
        None => None,
    }
}

/// The parent of node k of a file, with its number.
pub fn above_of(file: &File, k: usize) -> Option<Found>
    ensures { Exactly (IsAbove file.now.nodes k) result }
{
    parent_of(file.nodes(), file.parents(), k)
}

/// Whether node k of a file is a lone key of a composite literal.
pub fn is_lone_key(file: &File, k: usize) -> bool
    ensures { IsTrue result ↔ IsKey file.now.nodes k }
{
    is_key(file.nodes(), file.parents(), k)
}

/// Whether the link leads to node k.
pub fn is_link(link: Option<u32>, k: usize) -> bool
    ensures { IsTrue result ↔ (link ≡ Some k) }
{
    match link {
        Some(at) => at as usize == k,
        None => false,
    }
}
