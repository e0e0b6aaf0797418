// The tree of a file.
use crate::NodeKind;
use argot_text::Sequence;

/// A node, with its first token and its last, its first child and its next sibling by their numbers. A node without
/// tokens, an empty statement, has the number of the token before which it stands for both.
#[derive(Clone, Copy, Debug, PartialEq, Eq)]
pub struct TreeNode {
    pub kind: NodeKind,
    pub token: u32,
    pub last: u32,
    pub first: Option<u32>,
    pub next: Option<u32>,
}

/// The nodes of a tree in preorder.
#[derive(Debug, Drop)]
pub struct Tree {
    pub nodes: Sequence<TreeNode>,
}
