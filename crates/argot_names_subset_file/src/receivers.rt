// Functions without a body, and whether there is an entry for them.
ghost use Rattle.std.specs.Prelude.{◌≡◌, ◌↔◌, IsTrue};
ghost use Rattle.argot_tree.specs.declared.node_kind.NodeKind.TheVariants.{TypeName};
ghost use Rattle.argot_names_rules.specs.Nodes.{is_params};
ghost use Rattle.argot_names_rules.specs.Subset.{wraps_receiver, HasType};
ghost use Rattle.argot_answers.specs.Answers.{Exactly};
ghost use Rattle.argot_names_subset_file.specs.Parts.{IsBodilessAbove, IsDeclaredAt, IsBodiless};
ghost use Rattle.argot_names_subset_file.specs.Receivers.{IsListType, IsBase, IsWithout, HasWithout, LacksEntry};

use crate::entries::has_entry;
use crate::parts::Part;
use crate::view::View;
use argot_files::File;
use argot_names_rules::Feature;
use argot_tree::NodeKind;

/// Whether a node of this kind is a list of parameters.
fn is_params(kind: NodeKind) -> bool
    ensures { result ≡ is_params kind }
{
    matches!(kind, NodeKind::Params | NodeKind::NamedParams)
}

/// Whether a node of this kind is parentheses or a star around a receiver's type.
fn wraps_receiver(kind: NodeKind) -> bool
    ensures { result ≡ wraps_receiver kind }
{
    matches!(kind, NodeKind::TypeParens | NodeKind::PointerType)
}

/// Whether a node of this kind is the name of a type.
fn is_type_name(kind: NodeKind) -> bool
    ensures { IsTrue result ↔ (kind ≡ TypeName) }
{
    matches!(kind, NodeKind::TypeName)
}

/// The type of a parameter.
fn type_of_param(file: &File, param: usize) -> Option<usize>
    ensures { Exactly (HasType file.now.nodes param) result }
{
    match file.node(param)?.kind {
        NodeKind::Param => file.first_child(param),
        NodeKind::NamedParam => file.next(file.first_child(param)?),
        _ => None,
    }
}

/// The type of the first parameter of a list.
fn list_type(file: &File, list: usize) -> Option<usize>
    ensures { Exactly (IsListType file.now.nodes list) result }
{
    if !is_params(file.node(list)?.kind) {
        return None;
    }
    type_of_param(file, file.first_child(list)?)
}

/// The token of a type's name, parentheses and stars left out.
fn base_of(file: &File, type_: usize) -> Option<u32>
    ensures { Exactly (IsBase file.now.nodes type_) result }
{
    let mut at = type_;
    while let Some(node) = file.node(at) {
        if is_type_name(node.kind) {
            return Some(node.token);
        }
        if !wraps_receiver(node.kind) {
            return None;
        }
        at = file.first_child(at)?;
    }
    None
}

/// Whether a list of parameters is that of a receiver for which there is no entry.
fn is_without(view: &View, path: &[u8], name: &[u8], list: usize) -> bool
    ensures { IsTrue result ↔ IsWithout view.now.file.now view.now.entries.now path.now name.now list }
{
    let Some(type_) = list_type(view.file, list) else {
        return false;
    };
    match base_of(view.file, type_) {
        Some(token) => !has_entry(view.entries, path, view.file.text(token), name),
        None => !has_entry(view.entries, path, &[], name),
    }
}

/// Whether a list before the name of a declaration is that of a receiver for which there is no entry.
fn some_without(view: &View, path: &[u8], name: &[u8], decl: usize) -> bool
    ensures { IsTrue result ↔ HasWithout view.now.file.now view.now.entries.now path.now name.now decl }
{
    for at in view.file.children(decl) {
        if is_without(view, path, name, at) {
            return true;
        }
    }
    false
}

/// Whether a function, or a method by one of its receivers, has no entry.
fn lacks_entry(view: &View, path: &[u8], name: &[u8], decl: usize) -> bool
    ensures { IsTrue result ↔ LacksEntry view.now.file.now view.now.entries.now path.now name.now decl }
{
    if view.file.has_receiver(decl) {
        some_without(view, path, name, decl)
    } else {
        !has_entry(view.entries, path, &[], name)
    }
}

/// The declaration of a function without a body, of whose parts node k is one.
fn bodiless_above(file: &File, k: usize) -> Option<usize>
    ensures { Exactly (IsBodilessAbove file.now.nodes k) result }
{
    let decl = file.parent(k)?;
    match file.node(decl)?.kind {
        NodeKind::FuncDecl => {
            if file.has_body(decl) {
                None
            } else {
                Some(decl)
            }
        }
        _ => None,
    }
}

/// The token of a name that is declared.
fn declared_token(file: &File, k: usize) -> Option<u32>
    ensures { Exactly (IsDeclaredAt file.now.nodes k) result }
{
    let node = file.node(k)?;
    match node.kind {
        NodeKind::DeclName => Some(node.token),
        _ => None,
    }
}

/// The name of a function without a body, for which the package has no entry, at its token.
pub fn bodiless_at(view: &View, path: &[u8], k: usize) -> Option<Part>
    ensures { Exactly (IsBodiless view.now.file.now view.now.entries.now path.now k) result }
{
    let token = declared_token(view.file, k)?;
    let decl = bodiless_above(view.file, k)?;
    if lacks_entry(view, path, view.file.text(token), decl) {
        Some(Part {
            feature: Feature::FunctionWithoutBody,
            token,
        })
    } else {
        None
    }
}
