// Tables by the number of a node.
ghost use Rattle.std.specs.Prelude.{◌≡◌, ◌<◌, ◌↔◌, IsTrue, Some, true, length, slice_get};
ghost use Rattle.argot_answers.specs.Answers.{Exactly};

use argot_tree::TreeNode;

/// Node k.
pub(crate) fn node_at(nodes: &[TreeNode], k: usize) -> TreeNode
    requires { k < length nodes.now }
    ensures { slice_get nodes.now k ≡ Some result }
{
    nodes[k]
}

/// Entry k.
pub(crate) fn entry_at(table: &[Option<usize>], k: usize) -> Option<usize>
    requires { k < length table.now }
    ensures { slice_get table.now k ≡ Some result }
{
    table[k]
}

/// What the table has for node k.
pub(crate) fn number_in(table: &Vec<Option<usize>>, k: usize) -> Option<usize>
    ensures { Exactly (λ c. slice_get table.now.items k ≡ Some (Some c)) result }
{
    *table.get(k)?
}

/// Whether the table marks node k.
pub(crate) fn is_marked(marks: &Vec<bool>, k: usize) -> bool
    ensures { IsTrue result ↔ (slice_get marks.now.items k ≡ Some true) }
{
    marks.get(k).copied().unwrap_or(false)
}
