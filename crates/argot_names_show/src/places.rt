// Where a node stands, by its number among those of all trees.
ghost use Rattle.std.specs.Prelude.{◌<◌, IfSome, length};

use argot_names_files::Folder;
use argot_text::{Pos, pos_of};
use argot_tree::{Tree, TreeNode};

// The number of the node's file, and the node.
fn node_of(trees: &[Tree], number: usize) -> Option<(usize, TreeNode)> {
    let mut left = number;
    for file in 0..trees.len() {
        let nodes = trees[file].nodes.as_slice();
        match nodes.get(left) {
            Some(node) => return Some((file, *node)),
            None => left = left.saturating_sub(nodes.len()),
        }
    }
    None
}

/// The place of the first byte of a node.
pub fn place_of(folder: &Folder, number: u32) -> Option<Pos>
    ensures { IfSome result (λ at. at.file < length folder.now.sources.paths) }
{
    let (file, node) = node_of(folder.trees.as_slice(), number as usize)?;
    if file >= folder.sources.paths.len() {
        return None;
    }
    let token = folder
        .lexed
        .get(file)?
        .tokens
        .as_slice()
        .get(node.token as usize)?;
    let bytes = folder.sources.contents.as_slice().get(file)?.as_slice();
    if bytes.len() >= u32::MAX as usize {
        return None;
    }
    let number = u32::try_from(file).ok()?;
    Some(pos_of(bytes, number, (token.start as usize).min(bytes.len())))
}
