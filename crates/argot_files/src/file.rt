// One file, with the tables that its tree determines.
ghost use Rattle.std.specs.Prelude.{◌≡◌, ◌<◌, ◌↔◌, ℕ, IfOk, IsTrue, length, slice_get};
ghost use Rattle.std.specs.Option.{ForSome};
ghost use Rattle.argot_answers.specs.Answers.{Exactly, In};
ghost use Rattle.argot_tree.specs.declared.node_kind.NodeKind.TheVariants.{Block, FuncDecl};
ghost use Rattle.argot_names_rules.specs.Files.{text_at};
ghost use Rattle.argot_names_rules.specs.Nodes.{Is, HasChild, HasReceiver, IsChild, IsFirstChild, IsNext};
ghost use Rattle.argot_files.specs.Children.{children_of};
ghost use Rattle.argot_files.specs.Forms.{IsFormed};
ghost use Rattle.argot_files.specs.Keys.{AreKeys, IsKeyChild};
ghost use Rattle.argot_files.specs.Links.{IsLinked};
ghost use Rattle.argot_files.specs.Marks.{AreMarks};
ghost use Rattle.argot_files.specs.Parents.{AreParents};
ghost use Rattle.argot_files.specs.Reading.{file_of};
ghost use Rattle.argot_files.specs.declared.marks.Wanted.TheVariants.{Parameters};

use crate::children::{Children, first_in, next_in};
use crate::keys::key_children;
use crate::marks::{Wanted, marks_of};
use crate::parents::parents_of;
use crate::tables::{is_marked, number_in};
use crate::texts::spelled_at;
use argot_text::Memory;
use argot_tree::{Token, Tree, TreeNode};
use std::alloc::Global;
use std::marker::Model;

/// One file: its bytes, its tokens and its tree. Contracts see the `SourceFile` of argot_names_rules.
#[derive(Drop)]
pub struct File<'a> {
    bytes: &'a [u8],
    tokens: &'a [Token],
    nodes: &'a [TreeNode],
    parents: Vec<Option<usize>>,
    keys: Vec<Option<usize>>,
    receivers: Vec<bool>,
}

impl<'a> Model for File<'a> {
    ghost use Rattle.argot_names_rules.specs.Files.{SourceFile};

    ghost Value = { SourceFile };

    ghost view = { λ f. record { bytes = f.bytes.now; tokens = f.tokens.now; nodes = f.nodes.now } };

    ghost use Rattle.argot_files.specs.Tabled.{AreTables};

    ghost invariant = { λ f. AreTables f.nodes.now f.parents.items f.keys.items f.receivers.items };
}

impl<'a> File<'a> {
    /// The file of these bytes, tokens and nodes.
    pub fn new(
        alloc: Global,
        bytes: &'a [u8],
        tokens: &'a [Token],
        tree: &'a Tree,
    ) -> Result<File<'a>, Memory>
        requires { IsFormed tree.now.nodes }
        ensures { IfOk result (λ f. f ≡ file_of bytes.now tokens.now tree.now.nodes) }
    {
        let nodes = tree.nodes.as_slice();
        let parents = parents_of(alloc, nodes)?;
        let keys = key_children(alloc, nodes, &parents)?;
        let receivers = marks_of(alloc, nodes, &parents, Wanted::Parameters)?;
        Ok(File {
            bytes,
            tokens,
            nodes,
            parents,
            keys,
            receivers,
        })
    }

    /// The bytes of the file.
    pub fn bytes(&self) -> &'a [u8]
        ensures { result.now ≡ self.now.bytes }
    {
        self.bytes
    }

    /// The tokens of the file.
    pub fn tokens(&self) -> &'a [Token]
        ensures { result.now ≡ self.now.tokens }
    {
        self.tokens
    }

    /// The token of this number, if there is one.
    pub fn token(&self, at: u32) -> Option<Token>
        ensures { result ≡ slice_get self.now.tokens at }
    {
        self.tokens.get(at as usize).copied()
    }

    /// The bytes of a token; none where there is no such token.
    pub fn text(&self, token: u32) -> &'a [u8]
        ensures { result.now ≡ text_at self.now token }
    {
        spelled_at(self.bytes, self.tokens, token)
    }

    /// How many nodes the tree has.
    pub fn len(&self) -> usize
        ensures { result ≡ length self.now.nodes }
    {
        self.nodes.len()
    }

    /// The node of this number, if there is one.
    pub fn node(&self, at: usize) -> Option<TreeNode>
        ensures { result ≡ slice_get self.now.nodes at }
    {
        self.nodes.get(at).copied()
    }

    /// The parent of a node.
    pub fn parent(&self, at: usize) -> Option<usize>
        ensures { Exactly (λ p. IsChild self.now.nodes p at) result }
    {
        number_in(&self.parents, at)
    }

    /// The first child of a node.
    pub fn first_child(&self, at: usize) -> Option<usize>
        ensures child { Exactly (IsFirstChild self.now.nodes at) result }
        ensures ahead { ForSome result (λ c. (at < c) × (c < length self.now.nodes)) }
    {
        Some(first_in(self.nodes, at)? as usize)
    }

    /// The node right behind a node, below the same parent.
    pub fn next(&self, at: usize) -> Option<usize>
        ensures sibling { Exactly (IsNext self.now.nodes at) result }
        ensures ahead { ForSome result (λ c. (at < c) × (c < length self.now.nodes)) }
    {
        Some(next_in(self.nodes, at)? as usize)
    }

    /// The children of a node, in order.
    pub fn children(&self, at: usize) -> Children<'a>
        ensures list { result ≡ children_of self.now.nodes at }
        ensures each { (c : ℕ) → In c result ↔ IsChild self.now.nodes at c }
    {
        Children {
            nodes: self.nodes,
            at: first_in(self.nodes, at),
        }
    }

    /// The child of a node that is looked for in it, as the body of a function.
    pub fn key_child(&self, at: usize) -> Option<usize>
        ensures { Exactly (IsKeyChild self.now.nodes at) result }
    {
        number_in(&self.keys, at)
    }

    /// Whether the declaration of a function has a body.
    pub fn has_body(&self, decl: usize) -> bool
        ensures { Is self.now.nodes decl FuncDecl → IsTrue result ↔ HasChild self.now.nodes decl Block }
    {
        number_in(&self.keys, decl).is_some()
    }

    /// Whether a declaration has a receiver.
    pub fn has_receiver(&self, decl: usize) -> bool
        ensures { IsTrue result ↔ HasReceiver self.now.nodes decl }
    {
        is_marked(&self.receivers, decl)
    }

    /// The nodes, for functions that take them as a list.
    pub fn nodes(&self) -> &'a [TreeNode]
        ensures nodes { result.now ≡ self.now.nodes }
        ensures formed { IsFormed self.now.nodes }
        ensures linked { IsLinked self.now.nodes }
    {
        self.nodes
    }

    /// The parent of each node, for functions that take the table.
    pub fn parents(&self) -> &[Option<usize>]
        ensures { AreParents self.now.nodes result.now }
    {
        self.parents.as_slice()
    }

    /// The children that are looked for, for functions that take the table.
    pub fn keys(&self) -> &[Option<usize>]
        ensures { AreKeys self.now.nodes result.now }
    {
        self.keys.as_slice()
    }

    /// The declarations with receivers, for functions that take the table.
    pub fn receivers(&self) -> &[bool]
        ensures { AreMarks self.now.nodes Parameters result.now }
    {
        self.receivers.as_slice()
    }
}
