// What was read of a file.
ghost use Rattle.std.specs.Prelude.{◌≡◌, List};
ghost use Rattle.argot_tree.specs.declared.lexed.Lexed.{Lexed};
ghost use Rattle.argot_tree.specs.declared.tree.Tree.{Tree};
ghost use Rattle.argot_names_rules.specs.Files.{SourceFiles, read_of};
ghost use Rattle.argot_names_imports.specs.Reads.{bytes_at, tokens_at, nodes_at};

use argot_text::Sources;
use argot_tree::{Lexed, Token, Tree, TreeNode};

/// The bytes of the file; none where there is no such file. No memory.
pub fn bytes_at(sources: &Sources, file: u32) -> &[u8]
    ensures { result.now ≡ bytes_at sources.now file }
{
    match sources.contents.as_slice().get(file as usize) {
        Some(bytes) => bytes.as_slice(),
        None => &[],
    }
}

/// The tokens of the file. No memory.
pub fn tokens_at(lexed: &[Lexed], file: u32) -> &[Token]
    ensures { result.now ≡ tokens_at lexed.now file }
{
    match lexed.get(file as usize) {
        Some(lexed) => lexed.tokens.as_slice(),
        None => &[],
    }
}

/// The nodes of the file. No memory.
pub fn nodes_at(trees: &[Tree], file: u32) -> &[TreeNode]
    ensures { result.now ≡ nodes_at trees.now file }
{
    match trees.get(file as usize) {
        Some(tree) => tree.nodes.as_slice(),
        None => &[],
    }
}
