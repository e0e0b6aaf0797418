// From nodes behind their children to nodes before them, with links, from right to left.
ghost use Rattle.std.specs.Prelude.{◌≡◌, reverse, IfOk, OnOk};
ghost use Rattle.argot_tree.specs.Forests.{Forest, nodes_from};
ghost use Rattle.argot_parse_reader.specs.Posts.{posts};
ghost use Rattle.argot_parse_nodes.specs.Links.{node_of, settle, take_post};
ghost use Rattle.argot_parse_nodes.specs.Linker.{seen, IsUnlinked};

use crate::pending::Pending;
use argot_parse_reader::Post;
use argot_text::Memory;
use argot_tree::{NodeKind, TreeNode};
use std::alloc::Global;

/// What is pending, the innermost apart, and the nodes from the right end down to a number.
#[derive(Drop)]
pub struct Linker {
    pub inner: Pending,
    pub outer: Vec<Pending>,
    pub at: u32,
    pub nodes: Vec<TreeNode>,
}

fn node_of(pending: Pending) -> TreeNode
    ensures { result ≡ node_of pending }
{
    TreeNode {
        kind: pending.post.kind,
        token: pending.post.token,
        last: pending.post.last,
        first: pending.child,
        next: pending.next,
    }
}

// What has all its children is put before them.
fn settle(linker: &mut Linker) -> Result<(), Memory>
    ensures { OnOk result (seen linker.new ≡ settle linker.old.inner (reverse linker.old.outer.items) linker.old.at (reverse linker.old.nodes.items)) }
{
    while linker.inner.left == 0 {
        let Some(around) = linker.outer.pop() else {
            return Ok(());
        };
        linker.at = linker.at.saturating_sub(1);
        linker.nodes.push(node_of(linker.inner))?;
        linker.inner = Pending {
            post: around.post,
            left: around.left,
            next: around.next,
            child: Some(linker.at),
        };
    }
    Ok(())
}

// A node is pending inside the innermost.
fn take_post(linker: &mut Linker, post: Post) -> Result<(), Memory>
    ensures { OnOk result (seen linker.new ≡ take_post post (seen linker.old)) }
{
    let around = linker.inner;
    linker.outer.push(Pending {
        post: around.post,
        left: around.left.saturating_sub(post.size as u64),
        next: around.next,
        child: around.child,
    })?;
    linker.inner = Pending {
        post,
        left: (post.size as u64).saturating_sub(1),
        next: around.child,
        child: None,
    };
    settle(linker)
}

// Room that is no longer needed is given back, where it is more than half.
fn give_back(behind: &mut Vec<Post>)
    ensures { behind.new.items ≡ behind.old.items }
{
    if behind.len() < behind.capacity() / 2 {
        behind.shrink_to_fit();
    }
}

// Nothing is linked yet of so many nodes; what waits for them is never done.
fn unlinked(alloc: Global, count: u32) -> Result<Linker, Memory>
    ensures { IfOk result (λ linker. IsUnlinked linker count) }
{
    let bottom = Post {
        kind: NodeKind::File,
        token: 0,
        last: 0,
        size: 0,
    };
    Ok(Linker {
        inner: Pending {
            post: bottom,
            left: count as u64 + 1,
            next: None,
            child: None,
        },
        outer: Vec::new(alloc),
        at: count,
        nodes: Vec::with_capacity(alloc, count as usize)?,
    })
}

/// The nodes of trees side by side in preorder, with their links, from those nodes behind their children.
///
/// Memory is the only cause of an error: there is none left, or there are 2^32 nodes.
pub fn link(alloc: Global, behind: Vec<Post>) -> Result<Vec<TreeNode>, Memory>
    ensures { IfOk result (λ nodes. (x : Forest) → behind.items ≡ posts x → nodes.items ≡ nodes_from 0 x) }
{
    let Ok(count) = u32::try_from(behind.len()) else {
        return Err(Memory);
    };
    let mut linker = unlinked(alloc, count)?;
    let mut behind = behind;
    while let Some(post) = behind.pop() {
        give_back(&mut behind);
        take_post(&mut linker, post)?;
    }
    let mut nodes = linker.nodes;
    nodes.reverse();
    Ok(nodes)
}
