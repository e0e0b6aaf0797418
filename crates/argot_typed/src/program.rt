// A program whose names and types are known. Nodes are numbered through all trees, in order of file and then in preorder.
use crate::{TypeId, TypeTable};
use argot_consts::Const;
use argot_text::{Sequence, Text};

/// A program with its types.
#[derive(Debug, Drop)]
pub struct TypedProgram {
    pub table: TypeTable,
    pub types: Sequence<NodeType>,
    pub consts: Sequence<NodeConst>,
    pub uses: Sequence<Use>,
    pub packages: Packages,
}

/// The types of a node: one for a value or a type, one per result for a call, none for any other node.
#[derive(Debug, Drop)]
pub struct NodeType {
    pub node: u32,
    pub parts: Sequence<TypeId>,
}

/// A node and the constant that it is.
#[derive(Clone, Copy, Debug)]
pub struct NodeConst {
    pub node: u32,
    pub value: Const,
}

/// A node and the declaration that its name means.
#[derive(Clone, Copy, Debug, PartialEq, Eq)]
pub struct Use {
    pub node: u32,
    pub decl: u32,
}

/// The packages of a program, its declarations, and the names that the rules of scope resolve.
#[derive(Debug, Drop)]
pub struct Packages {
    pub packages: Sequence<Package>,
    pub decls: Sequence<Decl>,
    pub uses: Sequence<Use>,
}

/// A package: its path, its name, and the numbers of its files.
#[derive(Debug, Drop)]
pub struct Package {
    pub path: Text,
    pub name: Text,
    pub files: Sequence<u32>,
}

/// A declaration. A predeclared name has neither a package nor a node.
#[derive(Debug, Drop)]
pub struct Decl {
    pub package: Option<u32>,
    pub node: Option<u32>,
    pub name: Text,
}
