// What is known of the packages and of their declarations.
ghost use Rattle.std.specs.Prelude.{◌≡◌, ℕ, List, Some, slice_get};
ghost use Rattle.argot_tree.specs.declared.tree.TreeNode.{TreeNode};
ghost use Rattle.argot_typed.specs.declared.program.Decl.{Decl};
ghost use Rattle.argot_names_rules.specs.Files.{SourceFiles, read_of};
ghost use Rattle.argot_names_rules.specs.Scopes.{Declared};
ghost use Rattle.argot_answers.specs.Answers.{Exactly};
ghost use Rattle.argot_names_uses.specs.Numbers.{IsNumberOf};
ghost use Rattle.argot_names_uses.specs.Known.{AreKnown};

use crate::{decl_number, node_number};
use argot_names_imports::Reached;
use argot_names_tops::Tops;

/// The packages, what they declare, and how nodes and declarations are numbered.
#[derive(Clone, Copy)]
pub struct Known<'s, 'a> {
    /// For each file how many nodes stand before it.
    pub bases: &'s [u32],
    /// For each node's number that of its declaration.
    pub numbers: &'s [Option<u32>],
    pub reached: &'s Reached,
    pub tops: &'s Tops<'a>,
}

/// The number of the declaration that a node of a file is. No memory.
pub fn number_at(known: &Known, file: u32, node: usize) -> Option<u32>
    ensures { (h : SourceFiles) (main : List ℕ) (decls : List Decl) (n : TreeNode) → AreKnown h main decls known.now
        → slice_get (read_of h file).nodes node ≡ Some n
        → Exactly (IsNumberOf h decls (Declared file node)) result }
{
    match node_number(known.bases, file, node) {
        Some(number) => decl_number(known.numbers, number),
        None => None,
    }
}
