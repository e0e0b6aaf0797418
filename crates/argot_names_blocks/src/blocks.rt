// The blocks of a file's functions as a list, in which the innermost block around a token is found by search.
ghost use Rattle.std.specs.Prelude.{◌≡◌, ℕ, ◌+◌, ◌<◌, ◌≤◌, List, Some, length, slice_get, OnOk, IfOk};
ghost use Rattle.argot_tree.specs.declared.tree.TreeNode.{TreeNode};
ghost use Rattle.argot_names_rules.specs.Blocks.{is_block};
ghost use Rattle.argot_files.specs.Forms.{IsFormed};
ghost use Rattle.argot_names_blocks.specs.Blocks.{AreBlocks, AreSomeBlocks, IsInnermostIn, BeginBy, AreLinked, IsLastTo, AreBlocksUpTo, span_in};

use crate::tables::node_at;
use argot_text::Memory;
use argot_tree::{NodeKind, TreeNode};
use std::alloc::Global;

/// A block, by its first token and its last, and the number of the innermost block around it, where there is one.
#[derive(Clone, Copy, Debug, PartialEq, Eq)]
pub struct Block {
    pub opens: u32,
    pub closes: u32,
    pub outer: Option<u32>,
}

/// The first token of a block and its last.
#[derive(Clone, Copy, Debug, PartialEq, Eq)]
pub struct Span {
    pub opens: u32,
    pub closes: u32,
}

/// Whether nodes of this kind are blocks.
pub fn is_block(kind: NodeKind) -> bool
    ensures { result ≡ is_block kind }
{
    matches!(
        kind,
        NodeKind::Block
            | NodeKind::If
            | NodeKind::While
            | NodeKind::For
            | NodeKind::Range
            | NodeKind::AssignRange
            | NodeKind::DefineRange
            | NodeKind::Switch
            | NodeKind::TypeSwitch
            | NodeKind::Case
            | NodeKind::Default
            | NodeKind::SendCase
            | NodeKind::AssignCase
            | NodeKind::DefineCase
            | NodeKind::ReceiveCase
    )
}

/// Block k.
pub fn block_at(blocks: &[Block], k: u32) -> Block
    requires { k < length blocks.now }
    ensures { slice_get blocks.now k ≡ Some result }
{
    blocks[k as usize]
}

/// The number of the last one of the first `count` blocks.
fn last_of(blocks: &[Block], count: usize, token: u32) -> Option<u32>
    requires within { count ≤ length blocks.now }
    requires linked { AreLinked blocks.now }
    requires before { BeginBy blocks.now count token }
    ensures none { result ≡ None → count ≡ 0 }
    ensures last { (k : ℕ) → result ≡ Some k → k + 1 ≡ count }
{
    if count == 0 {
        return None;
    }
    Some((count - 1) as u32)
}

/// The last one of the first `count` blocks, all of which begin at the token or before it, that closes at the token or
/// behind it. A block that closes before the token is passed by together with the blocks in it.
fn outwards(blocks: &[Block], count: usize, token: u32) -> Option<u32>
    requires within { count ≤ length blocks.now }
    requires linked { AreLinked blocks.now }
    requires before { BeginBy blocks.now count token }
    ensures { IsLastTo blocks.now count token result }
{
    let mut at = last_of(blocks, count, token);
    while let Some(k) = at {
        let block = block_at(blocks, k);
        if token <= block.closes {
            return Some(k);
        }
        at = block.outer;
    }
    None
}

/// The number of the innermost block around the token; none outside all blocks.
pub fn innermost(blocks: &[Block], token: u32) -> Option<u32>
    requires { AreSomeBlocks blocks.now }
    ensures { (tree : List TreeNode) → AreBlocks tree blocks.now → IsInnermostIn tree blocks.now token result }
{
    let count = blocks.partition_point(|block| block.opens <= token);
    outwards(blocks, count, token)
}

/// The innermost block around the token; none outside all blocks.
pub fn block_around(blocks: &[Block], token: u32) -> Option<Span>
    requires { AreSomeBlocks blocks.now }
    ensures { result ≡ span_in blocks.now token }
{
    match innermost(blocks, token) {
        Some(k) => {
            let block = block_at(blocks, k);
            Some(Span {
                opens: block.opens,
                closes: block.closes,
            })
        }
        None => None,
    }
}

/// Puts node k down where it is a block.
fn enclose(nodes: &[TreeNode], k: usize, blocks: &mut Vec<Block>) -> Result<(), Memory>
    requires formed { IsFormed nodes.now }
    requires node { k < length nodes.now }
    requires so_far { AreBlocksUpTo nodes.now k blocks.old.items }
    ensures { OnOk result (AreBlocksUpTo nodes.now (k + 1) blocks.new.items) }
{
    let node = node_at(nodes, k);
    if is_block(node.kind) {
        let outer = outwards(blocks.as_slice(), blocks.len(), node.token);
        blocks.push(Block {
            opens: node.token,
            closes: node.last,
            outer,
        })?;
    }
    Ok(())
}

/// The blocks of the tree, in the order of their first tokens.
pub fn blocks_of(alloc: Global, nodes: &[TreeNode]) -> Result<Vec<Block>, Memory>
    requires { IsFormed nodes.now }
    ensures { IfOk result (λ v. AreBlocks nodes.now v.items) }
{
    let mut blocks = Vec::new(alloc);
    for k in 0..nodes.len() {
        enclose(nodes, k, &mut blocks)?;
    }
    Ok(blocks)
}
