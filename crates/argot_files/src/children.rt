// The children of a node, one after the other.
ghost use Rattle.std.specs.Prelude.{◌≡◌, slice_get};
ghost use Rattle.std.specs.Iterator.{YieldsFirst, item_count};
ghost use Rattle.argot_files.specs.Children.{first_in, next_in};

use argot_tree::TreeNode;
use std::marker::Model;

/// The link of a node to its first child.
pub(crate) fn first_in(nodes: &[TreeNode], at: usize) -> Option<u32>
    ensures { result ≡ first_in (slice_get nodes.now at) }
{
    nodes.get(at)?.first
}

/// The link of a node to the next one below the same parent.
pub(crate) fn next_in(nodes: &[TreeNode], at: usize) -> Option<u32>
    ensures { result ≡ next_in (slice_get nodes.now at) }
{
    nodes.get(at)?.next
}

/// A walk over the children of a node: contracts see it as the list of the numbers that are left.
#[derive(Drop)]
pub struct Children<'a> {
    pub(crate) nodes: &'a [TreeNode],
    pub(crate) at: Option<u32>,
}

impl<'a> Model for Children<'a> {
    ghost use Rattle.std.specs.Prelude.{ℕ, List, length};
    ghost use Rattle.argot_files.specs.Links.{IsLinked};
    ghost use Rattle.argot_files.specs.Children.{along, IsWithin};

    ghost Value = { List ℕ };

    ghost view = { λ w. along (length w.nodes.now) w.nodes.now w.at };

    ghost invariant = { λ w. IsLinked w.nodes.now × IsWithin w.nodes.now w.at };
}

impl<'a> Iterator for Children<'a> {
    type Item = usize;

    ghost next_gives = { YieldsFirst (λ w. w) };

    ghost remaining = { item_count (λ w. w) };

    fn next(&mut self) -> Option<usize> {
        let at = self.at? as usize;
        self.at = next_in(self.nodes, at);
        Some(at)
    }
}
