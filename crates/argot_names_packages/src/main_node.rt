// Whether a node declares a function named `main`.
ghost use Rattle.std.specs.Prelude.{◌≡◌, ◌↔◌, IsTrue};
ghost use Rattle.argot_answers.specs.Answers.{Exactly};
ghost use Rattle.argot_names_rules.specs.PackageScope.{Function, IsTopName};
ghost use Rattle.argot_names_packages.specs.Mains.{is_declared, is_function, is_main_text, IsMainNode};

use argot_files::File;
use argot_tree::NodeKind;

// The node declares a name.
fn is_declared(kind: NodeKind) -> bool
    ensures { result ≡ is_declared kind }
{
    matches!(kind, NodeKind::DeclName)
}

// The node declares a function or a method.
fn is_function(kind: NodeKind) -> bool
    ensures { result ≡ is_function kind }
{
    matches!(kind, NodeKind::FuncDecl)
}

// The token of the name of a function, where the node is one.
fn function_at(file: &File, k: usize) -> Option<u32>
    ensures { Exactly (IsTopName file.now.nodes Function k) result }
{
    let node = file.node(k)?;
    if !is_declared(node.kind) {
        return None;
    }
    let decl = file.parent(k)?;
    if !is_function(file.node(decl)?.kind) {
        return None;
    }
    if file.has_receiver(decl) {
        return None;
    }
    Some(node.token)
}

/// The bytes are those of `main`. No memory.
pub fn is_main_text(text: &[u8]) -> bool
    ensures { result ≡ is_main_text text.now }
{
    text == "main".as_bytes()
}

/// The node is the name of a function `main`. No memory.
pub fn is_main_at(file: &File, k: usize) -> bool
    ensures { IsTrue result ↔ IsMainNode file.now k }
{
    match function_at(file, k) {
        Some(token) => is_main_text(file.text(token)),
        None => false,
    }
}
