// What a lone name, or the name of a type, stands for, by what it means.
ghost use Rattle.std.specs.Prelude.{◌≡◌, ◌≢◌, ◌↔◌, ℕ, List, IsTrue, codes, slice_get};
ghost use Rattle.argot_tree.specs.declared.node_kind.NodeKind.TheVariants as nodes;
ghost use Rattle.argot_typed.specs.declared.program.Decl.{Decl};
ghost use Rattle.argot_names_rules.specs.declared.package_key.PackageKey.{PackageKey};
ghost use Rattle.argot_names_rules.specs.Files.{SourceFiles, read_of, text_at};
ghost use Rattle.argot_names_rules.specs.Nodes.{Is};
ghost use Rattle.argot_names_blocks.specs.Listing.{IsSeen};
ghost use Rattle.argot_names_tops.specs.Tops.{IsNamesOf};
ghost use Rattle.argot_names_tops.specs.Meanings.{IsMeaning};
ghost use Rattle.argot_names_uses.specs.Numbers.{IsExactlyUnless, StandsBy};
ghost use Rattle.argot_names_uses.specs.Known.{AreKnown};

use crate::known::Known;
use crate::numbers::meant_number;
use argot_names_blocks::Lookup;
use argot_names_scopes::FileNames;
use argot_names_tops::Meaning;
use argot_tree::{NodeKind, TreeNode};

// Whether the node is the name of a type behind that of a package.
fn is_qualified(tree: &[TreeNode], node: usize) -> bool
    ensures { IsTrue result ↔ Is tree.now node nodes.QualifiedType }
{
    match tree.get(node) {
        Some(found) => matches!(found.kind, NodeKind::QualifiedType),
        None => false,
    }
}

/// The number of the declaration that a name of this meaning stands for. A qualified name stands for a member, which isn't
/// looked up here. The name isn't `_`; the file is one of a package that is reached. No memory.
pub fn lone_number(
    known: &Known,
    names: &FileNames,
    file: u32,
    looked: Lookup,
    meaning: Meaning,
) -> Option<u32>
    requires { IsSeen names.now.tree.now.nodes looked }
    ensures { (h : SourceFiles) (main : List ℕ) (home : PackageKey) (decls : List Decl)
        → AreKnown h main decls known.now → IsNamesOf h file names.now
        → text_at (read_of h file) looked.token ≢ codes "_"
        → IsMeaning h known.now.reached.now home file looked.token (text_at (read_of h file) looked.token) meaning
        → IsExactlyUnless (Is names.now.tree.now.nodes looked.node nodes.QualifiedType)
        (StandsBy h home decls file looked.node) result }
{
    if is_qualified(names.tree.nodes.as_slice(), looked.node) {
        return None;
    }
    meant_number(known, file, meaning)
}
