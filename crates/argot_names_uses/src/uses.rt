// What the names of the packages' files stand for, and the first that stands for nothing.
ghost use Rattle.std.specs.Prelude.{◌≡◌, ◌<◌, ℕ, List, IfOk, IfSome, IfNone};
ghost use Rattle.argot_typed.specs.declared.program.Decl.{Decl};
ghost use Rattle.argot_typed.specs.declared.program.Use.{Use};
ghost use Rattle.argot_names_rules.specs.Files.{SourceFiles, IsFirst};
ghost use Rattle.argot_names_rules.specs.Lists.{IsListOf};
ghost use Rattle.argot_names_rules.specs.Faults.{IsUnresolved, IsNowhere, Unknown};
ghost use Rattle.argot_names_rules.specs.Loaded.{AreDecls, IsUse, count_nodes};
ghost use Rattle.argot_names_imports.specs.Reached.{homes_of};
ghost use Rattle.argot_files.specs.Places.{place_of};
ghost use Rattle.argot_names_tops.specs.Tops.{AreTops};
ghost use Rattle.argot_names_uses.specs.Known.{AreKnown};

use crate::all_files::fill_files;
use crate::known::Known;
use crate::use_table::listed;
use crate::{decl_table, node_bases, node_count};
use argot_names_imports::Reached;
use argot_names_tops::{Place, Tops};
use argot_text::Memory;
use argot_tree::Tree;
use argot_typed::{Decl, Use};
use std::alloc::Global;

/// What the names of packages stand for.
#[derive(Drop)]
pub struct NameUses {
    /// For each node that stands for a declaration the numbers of both, by node.
    pub uses: Vec<Use>,
    /// The first place of a name that stands for nothing.
    pub unresolved: Option<Place>,
}

// The same, where it is known how nodes, of which there are `count`, and declarations are numbered.
fn uses_in(alloc: Global, known: &Known, count: u32) -> Result<NameUses, Memory>
    requires { (h : SourceFiles) × (main : List ℕ) × AreTops h main known.now.reached.now known.now.tops.now }
    ensures uses { (h : SourceFiles) (main : List ℕ) (decls : List Decl) → AreKnown h main decls known.now
        → count ≡ count_nodes h.trees
        → IfOk result (λ s. IsListOf (λ (a b : Use). a.node < b.node)
        (IsUse h (homes_of h known.now.reached.now) decls) s.uses.items) }
    ensures some { (h : SourceFiles) (main : List ℕ) → AreTops h main known.now.reached.now known.now.tops.now
        → IfOk result (λ s. IfSome s.unresolved (λ p. IsFirst (IsUnresolved h main) (place_of p))) }
    ensures none { (h : SourceFiles) (main : List ℕ) → AreTops h main known.now.reached.now known.now.tops.now
        → IfOk result (λ s. IfNone s.unresolved (IsNowhere h main Unknown)) }
{
    let Ok(files) = u32::try_from(known.tops.files.len()) else {
        return Err(Memory);
    };
    let mut table = vec![in alloc; None; count as usize]?;
    let unresolved = fill_files(known, files, &mut table);
    let uses = listed(alloc, &table, count)?;
    Ok(NameUses { uses, unresolved })
}

/// What the nodes of the packages' files stand for, by the numbers of the nodes and of the declarations, which are `decls`;
/// and the first place of a name for which no declaration is in scope, or that the package before its dot doesn't export,
/// where there is one (Go specification: Declarations and scope, Qualified identifiers).
pub fn uses_of(
    alloc: Global,
    trees: &[Tree],
    reached: &Reached,
    tops: &Tops,
    decls: &[Decl],
) -> Result<NameUses, Memory>
    requires { (h : SourceFiles) × (main : List ℕ) × AreTops h main reached.now tops.now }
    ensures uses { (h : SourceFiles) (main : List ℕ) → h.trees ≡ trees.now → AreTops h main reached.now tops.now
        → AreDecls h (homes_of h reached.now) decls.now
        → IfOk result (λ s. IsListOf (λ (a b : Use). a.node < b.node)
        (IsUse h (homes_of h reached.now) decls.now) s.uses.items) }
    ensures some { (h : SourceFiles) (main : List ℕ) → AreTops h main reached.now tops.now
        → IfOk result (λ s. IfSome s.unresolved (λ p. IsFirst (IsUnresolved h main) (place_of p))) }
    ensures none { (h : SourceFiles) (main : List ℕ) → AreTops h main reached.now tops.now
        → IfOk result (λ s. IfNone s.unresolved (IsNowhere h main Unknown)) }
{
    let bases = node_bases(alloc, trees)?;
    let count = node_count(&bases);
    let numbers = decl_table(alloc, decls, count)?;
    let known = Known {
        bases: bases.as_slice(),
        numbers: numbers.as_slice(),
        reached,
        tops,
    };
    uses_in(alloc, &known, count)
}
