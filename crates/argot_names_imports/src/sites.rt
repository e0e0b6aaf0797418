// Where an import stands in the tree of its file, and how it is written.
ghost use Rattle.std.specs.Prelude.{◌≡◌, ℕ, Option, slice_get, IfSome, IfNone};
ghost use Rattle.argot_names_rules.specs.declared.alias.Alias.{Alias};
ghost use Rattle.argot_names_rules.specs.Imports.{IsImport};
ghost use Rattle.argot_names_imports.specs.Sites.{IsPathAt, IsNameAt};
ghost use Rattle.argot_names_imports.specs.Named.{IsNamedAt};
ghost use Rattle.argot_names_imports.specs.declared.sites.Site.{Site};

use argot_names_rules::Alias;
use argot_tree::{NodeKind, TreeNode};

/// The tokens of an import: the first one, that of its path, and its name.
#[derive(Clone, Copy)]
pub struct Site {
    pub at: u32,
    pub path_at: u32,
    pub alias: Alias,
}

/// The node of this number. No memory.
pub fn node_at(nodes: &[TreeNode], node: usize) -> Option<TreeNode>
    ensures { result ≡ slice_get nodes.now node }
{
    nodes.get(node).copied()
}

// The token of a path, where the node is one.
fn path_token(nodes: &[TreeNode], node: Option<u32>) -> Option<u32>
    ensures some { IfSome result (IsPathAt nodes.now node) }
    ensures none { IfNone result ((token : ℕ) → IsPathAt nodes.now node token → ⊥) }
{
    let child = node_at(nodes, node? as usize)?;
    match child.kind {
        NodeKind::ImportPath => Some(child.token),
        _ => None,
    }
}

// The token of a name, where the node is one, and the node next to it.
fn name_token(nodes: &[TreeNode], node: Option<u32>) -> Option<(u32, Option<u32>)>
    ensures some { IfSome result (λ r. IsNameAt nodes.now node r.0 r.1) }
    ensures none { IfNone result ((token : ℕ) (next : Option ℕ) → IsNameAt nodes.now node token next → ⊥) }
{
    let child = node_at(nodes, node? as usize)?;
    match child.kind {
        NodeKind::DeclName => Some((child.token, child.next)),
        _ => None,
    }
}

// An import by the node of its path.
fn by_path(nodes: &[TreeNode], at: u32, alias: Alias, path: Option<u32>) -> Option<Site>
    ensures some { IfSome result (λ s. (s.at ≡ at) × (s.alias ≡ alias) × IsPathAt nodes.now path s.path_at) }
    ensures none { IfNone result ((token : ℕ) → IsPathAt nodes.now path token → ⊥) }
{
    let path_at = path_token(nodes, path)?;
    Some(Site { at, path_at, alias })
}

// An import whose name stands before its path.
fn by_name(nodes: &[TreeNode], at: u32, name: Option<u32>) -> Option<Site>
    ensures some { IfSome result (IsNamedAt nodes.now at name) }
    ensures none { IfNone result ((s : Site) → IsNamedAt nodes.now at name s → ⊥) }
{
    let (name_at, path) = name_token(nodes, name)?;
    by_path(nodes, at, Alias::Named(name_at), path)
}

/// The import that the node of this number is; none where it is none. No memory.
pub fn site_at(nodes: &[TreeNode], node: usize) -> Option<Site>
    ensures some { IfSome result (λ s. IsImport nodes.now node s.at s.path_at s.alias) }
    ensures none { IfNone result ((at path_at : ℕ) (alias : Alias) → IsImport nodes.now node at path_at alias → ⊥) }
{
    let is = node_at(nodes, node)?;
    match is.kind {
        NodeKind::Spec => by_path(nodes, is.token, Alias::Unnamed, is.first),
        NodeKind::DotSpec => by_path(nodes, is.token, Alias::Dotted, is.first),
        NodeKind::NamedSpec => by_name(nodes, is.token, is.first),
        _ => None,
    }
}
