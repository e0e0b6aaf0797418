// A node behind its children.
use argot_tree::NodeKind;

/// A node behind its children: `size` nodes, itself among them, are its tree.
#[derive(Clone, Copy, Debug, PartialEq, Eq)]
pub struct Post {
    pub kind: NodeKind,
    pub token: u32,
    pub last: u32,
    pub size: u32,
}
