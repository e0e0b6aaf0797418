// Lines of nodes.
ghost use Rattle.std.specs.Prelude.{◌≡◌, ◌≤◌, ◌<◌, ◌-◌, ◌^◌, length, reverse, OnOk};
ghost use Rattle.argot_show.specs.TreeLines.{node_name, start_of, indent_onto, node_onto, around_by, popped};
ghost use Rattle.argot_show.specs.Cursors.{IsCursor};

use crate::cursor::Cursor;
use crate::lines::{put, put_number};
use argot_text::Memory;
use argot_tree::{NodeKind, Token, TreeNode};

fn node_name(kind: NodeKind) -> &'static str
    ensures { result.now ≡ node_name kind }
{
    match kind {
        NodeKind::File => "File",
        NodeKind::Import => "Import",
        NodeKind::ImportGroup => "ImportGroup",
        NodeKind::Spec => "Spec",
        NodeKind::DotSpec => "DotSpec",
        NodeKind::NamedSpec => "NamedSpec",
        NodeKind::ImportPath => "ImportPath",
        NodeKind::FuncDecl => "FuncDecl",
        NodeKind::TypeParams => "TypeParams",
        NodeKind::ConstDecl => "ConstDecl",
        NodeKind::ConstGroup => "ConstGroup",
        NodeKind::VarDecl => "VarDecl",
        NodeKind::VarGroup => "VarGroup",
        NodeKind::TypeDecl => "TypeDecl",
        NodeKind::TypeGroup => "TypeGroup",
        NodeKind::ConstSpec => "ConstSpec",
        NodeKind::VarSpec => "VarSpec",
        NodeKind::TypeSpec => "TypeSpec",
        NodeKind::AliasSpec => "AliasSpec",
        NodeKind::Names => "Names",
        NodeKind::DeclName => "DeclName",
        NodeKind::Signature => "Signature",
        NodeKind::Params => "Params",
        NodeKind::NamedParams => "NamedParams",
        NodeKind::Param => "Param",
        NodeKind::NamedParam => "NamedParam",
        NodeKind::LoneParam => "LoneParam",
        NodeKind::VariadicParam => "VariadicParam",
        NodeKind::NamedVariadic => "NamedVariadic",
        NodeKind::TypeName => "TypeName",
        NodeKind::QualifiedType => "QualifiedType",
        NodeKind::TypeParens => "TypeParens",
        NodeKind::PointerType => "PointerType",
        NodeKind::ArrayType => "ArrayType",
        NodeKind::SliceType => "SliceType",
        NodeKind::OpenArrayType => "OpenArrayType",
        NodeKind::MapType => "MapType",
        NodeKind::ChanType => "ChanType",
        NodeKind::SendType => "SendType",
        NodeKind::ReceiveType => "ReceiveType",
        NodeKind::FuncType => "FuncType",
        NodeKind::StructType => "StructType",
        NodeKind::InterfaceType => "InterfaceType",
        NodeKind::Field => "Field",
        NodeKind::EmbeddedField => "EmbeddedField",
        NodeKind::EmbeddedPointer => "EmbeddedPointer",
        NodeKind::Tag => "Tag",
        NodeKind::Method => "Method",
        NodeKind::EmbeddedType => "EmbeddedType",
        NodeKind::Binary => "Binary",
        NodeKind::Positive => "Positive",
        NodeKind::Negative => "Negative",
        NodeKind::LogicalNot => "LogicalNot",
        NodeKind::Complement => "Complement",
        NodeKind::Deref => "Deref",
        NodeKind::AddressOf => "AddressOf",
        NodeKind::Receive => "Receive",
        NodeKind::Literal => "Literal",
        NodeKind::NameUse => "NameUse",
        NodeKind::Parens => "Parens",
        NodeKind::FuncLiteral => "FuncLiteral",
        NodeKind::Composite => "Composite",
        NodeKind::Conversion => "Conversion",
        NodeKind::Selector => "Selector",
        NodeKind::SelectedName => "SelectedName",
        NodeKind::Index => "Index",
        NodeKind::SliceAll => "SliceAll",
        NodeKind::SliceFrom => "SliceFrom",
        NodeKind::SliceTo => "SliceTo",
        NodeKind::SliceBetween => "SliceBetween",
        NodeKind::SliceToMax => "SliceToMax",
        NodeKind::SliceBetweenMax => "SliceBetweenMax",
        NodeKind::TypeAssertion => "TypeAssertion",
        NodeKind::Call => "Call",
        NodeKind::SpreadCall => "SpreadCall",
        NodeKind::Elems => "Elems",
        NodeKind::Item => "Item",
        NodeKind::KeyedItem => "KeyedItem",
        NodeKind::Exprs => "Exprs",
        NodeKind::Block => "Block",
        NodeKind::Empty => "Empty",
        NodeKind::DeclStmt => "DeclStmt",
        NodeKind::Labeled => "Labeled",
        NodeKind::Go => "Go",
        NodeKind::Defer => "Defer",
        NodeKind::Return => "Return",
        NodeKind::Break => "Break",
        NodeKind::Continue => "Continue",
        NodeKind::Goto => "Goto",
        NodeKind::Fallthrough => "Fallthrough",
        NodeKind::LabelUse => "LabelUse",
        NodeKind::ExprStmt => "ExprStmt",
        NodeKind::Send => "Send",
        NodeKind::Increment => "Increment",
        NodeKind::Decrement => "Decrement",
        NodeKind::Assign => "Assign",
        NodeKind::OpAssign => "OpAssign",
        NodeKind::Define => "Define",
        NodeKind::If => "If",
        NodeKind::Init => "Init",
        NodeKind::Post => "Post",
        NodeKind::Switch => "Switch",
        NodeKind::TypeSwitch => "TypeSwitch",
        NodeKind::Guard => "Guard",
        NodeKind::NamedGuard => "NamedGuard",
        NodeKind::Case => "Case",
        NodeKind::Default => "Default",
        NodeKind::Values => "Values",
        NodeKind::Select => "Select",
        NodeKind::SendCase => "SendCase",
        NodeKind::AssignCase => "AssignCase",
        NodeKind::DefineCase => "DefineCase",
        NodeKind::ReceiveCase => "ReceiveCase",
        NodeKind::While => "While",
        NodeKind::For => "For",
        NodeKind::Range => "Range",
        NodeKind::AssignRange => "AssignRange",
        NodeKind::DefineRange => "DefineRange",
    }
}

/// The offset of a token, or the end of the file where no such token is.
pub fn start_of(bytes: &[u8], tokens: &[Token], n: usize) -> usize
    ensures start { result ≡ start_of bytes.now tokens.now n }
    ensures inside { result ≤ length bytes.now }
{
    match tokens.get(n) {
        Some(token) => (token.start as usize).min(bytes.len()),
        None => bytes.len(),
    }
}

// Two blanks, and two more for each node around.
fn put_indent(text: &mut Vec<u8>, around: &[bool]) -> Result<(), Memory>
    ensures { OnOk result (text.new.items ≡ indent_onto text.old.items around.now) }
{
    for _ in around {
        put(text, b"  ")?;
    }
    put(text, b"  ")
}

/// The line of a node; the cursor goes to its place. After `Memory` a part of it may stand there.
pub fn put_node(
    text: &mut Vec<u8>,
    bytes: &[u8],
    tokens: &[Token],
    around: &[bool],
    cursor: &mut Cursor,
    node: TreeNode,
) -> Result<(), Memory>
    requires short { length bytes.now < 2 ^ 32 - 1 }
    requires there { IsCursor bytes.now cursor.old }
    ensures line { OnOk result (text.new.items ≡ node_onto (indent_onto text.old.items around.now) bytes.now tokens.now node.kind node.token node.last) }
    ensures there { OnOk result (IsCursor bytes.now cursor.new) }
{
    put_indent(text, around)?;
    put(text, node_name(node.kind).as_bytes())?;
    put(text, b" ")?;
    put_number(text, node.token as u64)?;
    put(text, b" ")?;
    put_number(text, node.last as u64)?;
    put(text, b" ")?;
    let to = start_of(bytes, tokens, node.token as usize);
    *cursor = cursor.moved(bytes, to);
    put_number(text, cursor.line as u64)?;
    put(text, b":")?;
    put_number(text, cursor.col as u64)?;
    put(text, b"\n")
}

// Leaves each node around behind which no sibling stands, and the first behind which one does.
fn leave(around: &mut Vec<bool>)
    ensures { reverse around.new.items ≡ popped (reverse around.old.items) }
{
    while let Some(more) = around.pop() {
        if more {
            return;
        }
    }
}

/// Goes from a node to what is around the node behind it.
pub fn pass_node(around: &mut Vec<bool>, node: TreeNode) -> Result<(), Memory>
    ensures { OnOk result (reverse around.new.items ≡ around_by node.first node.next (reverse around.old.items)) }
{
    if node.first.is_some() {
        around.push(node.next.is_some())?;
    } else if node.next.is_none() {
        leave(around);
    }
    Ok(())
}
