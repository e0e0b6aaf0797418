// The parent of each node.
ghost use Rattle.std.specs.Prelude.{◌≡◌, ℕ, ◌<◌, length, IfOk};
ghost use Rattle.std.specs.Option.{ForSome};
ghost use Rattle.argot_files.specs.Links.{IsLinked};
ghost use Rattle.argot_files.specs.Parents.{AreParents, put};

use argot_text::Memory;
use argot_tree::TreeNode;
use std::alloc::Global;

/// Puts the parent at this number, where there is one.
fn link(parents: &mut Vec<Option<usize>>, at: Option<u32>, parent: Option<usize>)
    requires { ForSome at (λ c. c < length parents.old.items) }
    ensures { parents.new.items ≡ put parents.old.items at parent }
{
    if let Some(child) = at {
        parents[child as usize] = parent;
    }
}

/// The parent of each node, by the number of the node.
pub fn parents_of(alloc: Global, nodes: &[TreeNode]) -> Result<Vec<Option<usize>>, Memory>
    requires { IsLinked nodes.now }
    ensures { IfOk result (λ v. AreParents nodes.now v.items) }
{
    let mut parents = vec![in alloc; None; nodes.len()]?;
    for k in 0..nodes.len() {
        let node = nodes[k];
        link(&mut parents, node.first, Some(k));
        let parent = parents[k];
        link(&mut parents, node.next, parent);
    }
    Ok(parents)
}
