// Names and selectors that are left out, by tables of what names stand for.
ghost use Rattle.std.specs.Prelude.{◌≡◌, ◌↔◌, IsTrue, Some, true, slice_get};
ghost use Rattle.argot_names_rules.specs.Subset.{is_name, is_type_form, wraps_type};
ghost use Rattle.argot_answers.specs.Answers.{Exactly};
ghost use Rattle.argot_tree.specs.declared.node_kind.NodeKind.TheVariants.{Selector};
ghost use Rattle.argot_names_subset_file.specs.Atoms.{IsAtom, IsBeforeDot, IsSelectorOf, IsAboveFirst};
ghost use Rattle.argot_names_subset_file.specs.Parts.{IsStanding, IsNamed, IsMethod};

use crate::links::{above_of, is_link, is_lone_key};
use crate::parts::Part;
use crate::view::View;
use argot_files::File;
use argot_names_blocks::Found;
use argot_names_rules::Feature;
use argot_tree::NodeKind;

/// Whether a scope resolves the name of a node of this kind.
fn is_name(kind: NodeKind) -> bool
    ensures { result ≡ is_name kind }
{
    matches!(kind, NodeKind::NameUse | NodeKind::TypeName)
}

/// Whether a node of this kind is a type that is no name.
fn is_type_form(kind: NodeKind) -> bool
    ensures { result ≡ is_type_form kind }
{
    matches!(
        kind,
        NodeKind::PointerType
            | NodeKind::ArrayType
            | NodeKind::SliceType
            | NodeKind::MapType
            | NodeKind::ChanType
            | NodeKind::SendType
            | NodeKind::ReceiveType
            | NodeKind::FuncType
            | NodeKind::StructType
            | NodeKind::InterfaceType
    )
}

/// Whether a node of this kind is parentheses or a star.
fn wraps_type(kind: NodeKind) -> bool
    ensures { result ≡ wraps_type kind }
{
    matches!(kind, NodeKind::Parens | NodeKind::Deref)
}

/// Whether a node of this kind is an operand, a dot and a name.
fn is_selector(kind: NodeKind) -> bool
    ensures { IsTrue result ↔ (kind ≡ Selector) }
{
    matches!(kind, NodeKind::Selector)
}

/// The feature that the table has for node k.
fn standing(named: &[Option<Feature>], k: usize) -> Option<Feature>
    ensures { Exactly (IsStanding named.now k) result }
{
    match named.get(k) {
        Some(feature) => *feature,
        None => None,
    }
}

/// Whether the table says so of node k.
pub fn is_typed(typed: &[bool], k: usize) -> bool
    ensures { IsTrue result ↔ (slice_get typed.now k ≡ Some true) }
{
    match typed.get(k) {
        Some(is) => *is,
        None => false,
    }
}

/// A name that stands for a feature, at its token; a lone key in a composite literal doesn't count.
pub fn named_at(view: &View, k: usize) -> Option<Part>
    ensures { Exactly (IsNamed view.now.file.now.nodes view.now.named.now k) result }
{
    let node = view.file.node(k)?;
    if !is_name(node.kind) {
        return None;
    }
    if is_lone_key(view.file, k) {
        return None;
    }
    let feature = standing(view.named, k)?;
    Some(Part {
        feature,
        token: node.token,
    })
}

/// The selector of whose parts node k is one.
fn selector_of(file: &File, k: usize) -> Option<usize>
    ensures { Exactly (IsSelectorOf file.now.nodes k) result }
{
    let above = above_of(file, k)?;
    match above.node.kind {
        NodeKind::Selector => Some(above.at),
        _ => None,
    }
}

/// The expression that node k makes denote a type: itself, or the selector of whose name it is.
fn atom_at(view: &View, k: usize) -> Option<usize>
    ensures { Exactly (IsAtom view.now.file.now.nodes view.now.typed.now k) result }
{
    let node = view.file.node(k)?;
    match node.kind {
        NodeKind::NameUse => {
            if is_typed(view.typed, k) {
                Some(k)
            } else {
                None
            }
        }
        NodeKind::SelectedName => {
            if is_typed(view.typed, k) {
                selector_of(view.file, k)
            } else {
                None
            }
        }
        kind => { if is_type_form(kind) { Some(k) } else { None } }
    }
}

/// The parent of node k, where k is its first child.
fn above_first(file: &File, k: usize) -> Option<Found>
    ensures { Exactly (IsAboveFirst file.now.nodes k) result }
{
    let above = above_of(file, k)?;
    if is_link(above.node.first, k) {
        Some(above)
    } else {
        None
    }
}

/// The selector before whose dot the expression stands, in any number of parentheses and stars.
fn before_dot(file: &File, k: usize) -> Option<usize>
    ensures { Exactly (IsBeforeDot file.now.nodes k) result }
{
    let _linked = file.nodes();
    let mut at = k;
    while let Some(above) = above_first(file, at) {
        if is_selector(above.node.kind) {
            return Some(above.at);
        }
        if !wraps_type(above.node.kind) {
            return None;
        }
        at = above.at;
    }
    None
}

/// A selector whose operand denotes a type by node k, at its first token.
pub fn method_at(view: &View, k: usize) -> Option<Part>
    ensures { Exactly (IsMethod view.now.file.now.nodes view.now.typed.now k) result }
{
    let atom = atom_at(view, k)?;
    let selector = before_dot(view.file, atom)?;
    let node = view.file.node(selector)?;
    Some(Part {
        feature: Feature::MethodExpression,
        token: node.token,
    })
}
