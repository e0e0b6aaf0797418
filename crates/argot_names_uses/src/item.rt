// Declarations before they are put in order.
ghost use Rattle.std.specs.Prelude.{◌≡◌, ◌++◌, ◌∷◌, ℕ, List, Some, OnOk, IfOk, slice_get};
ghost use Rattle.argot_tree.specs.declared.tree.TreeNode.{TreeNode};
ghost use Rattle.argot_names_rules.specs.Files.{SourceFiles, read_of};
ghost use Rattle.argot_names_rules.specs.Loaded.{number_of};
ghost use Rattle.argot_names_uses.specs.Bases.{AreBases};
ghost use Rattle.argot_names_uses.specs.Items.{IsMade};

use crate::bases::node_number;
use argot_text::Memory;

/// A declaration: the number of its package, that of its node, and its name.
#[derive(Clone, Copy)]
pub struct Item<'a> {
    pub owner: u32,
    pub number: u32,
    pub name: &'a [u8],
}

/// The declaration of a name by a node of a file.
pub fn item_of<'a>(
    bases: &[u32],
    owner: u32,
    file: u32,
    node: usize,
    name: &'a [u8],
) -> Result<Item<'a>, Memory>
    ensures { (h : SourceFiles) (n : TreeNode) → AreBases h.trees bases.now
        → slice_get (read_of h file).nodes node ≡ Some n
        → IfOk result (IsMade owner (number_of h file node) name.now) }
{
    match node_number(bases, file, node) {
        Some(number) => Ok(Item {
            owner,
            number,
            name,
        }),
        None => Err(Memory),
    }
}
