// A node whose children are still to come.
use argot_parse_reader::Post;

/// A node whose children are still to come, from right to left: how many nodes of them are left, the node's next
/// sibling, and the last child that came.
#[derive(Clone, Copy, Debug)]
pub struct Pending {
    pub post: Post,
    pub left: u64,
    pub next: Option<u32>,
    pub child: Option<u32>,
}
