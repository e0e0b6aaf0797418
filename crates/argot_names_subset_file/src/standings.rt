// What the names at the nodes of all trees stand for, as far as it matters here.
ghost use Rattle.std.specs.Prelude.{◌≡◌, ◌↔◌, ◌<◌, IsTrue, IfOk, Some, length, slice_get, slice_set};
ghost use Rattle.argot_typed.specs.declared.program.Use.{Use};
ghost use Rattle.argot_names_rules.specs.Lists.{In, IsOrdered};
ghost use Rattle.argot_answers.specs.Answers.{Exactly};
ghost use Rattle.argot_names_subset_file.specs.Standings.{feature_numbered, IsNodeOf, IsTypeDecl, AreStandings};

use crate::names::is_typed;
use argot_names_rules::Feature;
use argot_text::Memory;
use argot_typed::{Decl, Use};
use std::alloc::Global;

/// For each node of all trees the feature that it stands for, and whether it stands for a type.
#[derive(Debug, Drop)]
pub struct Standings {
    pub named: Vec<Option<Feature>>,
    pub typed: Vec<bool>,
}

/// The feature of a predeclared name, by its number among the declarations.
fn feature_numbered(decl: u32) -> Option<Feature>
    ensures { result ≡ feature_numbered decl }
{
    if decl == 16 || decl == 17 {
        Some(Feature::FloatingPointType)
    } else if decl == 18 || decl == 19 {
        Some(Feature::ComplexType)
    } else if decl == 20 {
        Some(Feature::Uintptr)
    } else if decl == 21 {
        Some(Feature::Comparable)
    } else if decl == 40 {
        Some(Feature::Recover)
    } else if decl == 41 || decl == 42 || decl == 43 {
        Some(Feature::ComplexBuiltIn)
    } else {
        None
    }
}

/// The node of a declaration.
fn node_of(decls: &[Decl], decl: u32) -> Option<u32>
    ensures { Exactly (IsNodeOf decls.now decl) result }
{
    match decls.get(decl as usize) {
        Some(item) => item.node,
        None => None,
    }
}

/// Whether the declaration is that of a type. `types` marks the names of declared types.
fn is_type(types: &[bool], decls: &[Decl], decl: u32) -> bool
    ensures { IsTrue result ↔ IsTypeDecl types.now decls.now decl }
{
    if decl < 22 {
        return true;
    }
    match node_of(decls, decl) {
        Some(node) => is_typed(types, node as usize),
        None => false,
    }
}

/// Puts the feature at the node.
fn put_feature(named: &mut Vec<Option<Feature>>, node: u32, feature: Option<Feature>)
    requires { node < length named.old.items }
    ensures { named.new.items ≡ slice_set named.old.items node feature }
{
    named[node as usize] = feature;
}

/// Puts at the node whether it stands for a type.
fn put_type(typed: &mut Vec<bool>, node: u32, is: bool)
    requires { node < length typed.old.items }
    ensures { typed.new.items ≡ slice_set typed.old.items node is }
{
    typed[node as usize] = is;
}

/// Use k.
fn use_at(uses: &[Use], k: usize) -> Use
    requires { k < length uses.now }
    ensures { slice_get uses.now k ≡ Some result }
{
    uses[k]
}

/// What the nodes of all trees, as many as `count`, stand for by the uses.
pub fn standings_of(
    alloc: Global,
    count: usize,
    uses: &[Use],
    decls: &[Decl],
    types: &[bool],
) -> Result<Standings, Memory>
    requires ordered { IsOrdered (λ (a b : Use). a.node < b.node) uses.now }
    requires within { (use_ : Use) → In use_ uses.now → use_.node < count }
    ensures { IfOk result (AreStandings uses.now decls.now types.now) }
{
    let mut named = vec![in alloc; None; count]?;
    let mut typed = vec![in alloc; false; count]?;
    for k in 0..uses.len() {
        let use_ = use_at(uses, k);
        put_feature(&mut named, use_.node, feature_numbered(use_.decl));
        put_type(&mut typed, use_.node, is_type(types, decls, use_.decl));
    }
    Ok(Standings { named, typed })
}
