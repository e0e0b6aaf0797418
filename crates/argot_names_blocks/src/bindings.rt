// The blocks of one file, and what its nodes bring into scope and look up, as lists.
ghost use Rattle.std.specs.Prelude.{◌≡◌, List, OnOk, IfOk};
ghost use Rattle.argot_names_blocks.specs.Blocks.{AreBlocks};
ghost use Rattle.argot_names_blocks.specs.Binding.{IsBinding};
ghost use Rattle.argot_files.specs.Forms.{IsFormed};
ghost use Rattle.argot_names_blocks.specs.Generics.{seen_of};
ghost use Rattle.argot_files.specs.Keys.{AreKeys};
ghost use Rattle.argot_names_blocks.specs.Listing.{added, ListsAll, IsSeen, IsMemberName, IsTopDeclared, AreBindings};
ghost use Rattle.argot_files.specs.Marks.{AreMarks};
ghost use Rattle.argot_files.specs.Parents.{AreParents};
ghost use Rattle.argot_files.specs.declared.marks.Wanted.TheVariants.{Parameters};

use crate::binding::{Binding, bring};
use crate::blocks::{Block, blocks_of};
use crate::generics::{count_tokens, generics_of, has_dot};
use crate::lookup::{QualifiedName, is_key, looked_at, member_at};
use crate::tables::Tables;
use crate::tops::{TopName, top_at};
use argot_files::{File, Wanted, marks_of};
use argot_text::Memory;
use argot_tree::TreeNode;
use std::alloc::Global;

/// A name that is looked up, by its node and its token, and whether it is a lone key of a composite literal.
#[derive(Clone, Copy, Debug, PartialEq, Eq)]
pub struct Lookup {
    pub node: usize,
    pub token: u32,
    pub key: bool,
}

/// The blocks of a file's functions, what its nodes bring into these, what they declare outside, which names they look up,
/// and which members of packages; each list by node. For each token whether it stands in a declaration with type
/// parameters, and whether the file imports a package under a dot.
#[derive(Debug, Drop)]
pub struct Bindings {
    pub blocks: Vec<Block>,
    pub brought: Vec<Binding>,
    pub tops: Vec<TopName>,
    pub looked: Vec<Lookup>,
    pub dotted: Vec<QualifiedName>,
    pub generics: Vec<bool>,
    pub dot: bool,
}

/// Adds the item, where there is one.
fn add<T: Copy>(list: &mut Vec<T>, item: Option<T>) -> Result<(), Memory>
    ensures { OnOk result (list.new.items ≡ added list.old.items item) }
{
    if let Some(item) = item {
        list.push(item)?;
    }
    Ok(())
}

/// All that the nodes bring into the blocks of functions.
fn list_brought(alloc: Global, t: &Tables) -> Result<Vec<Binding>, Memory>
    requires formed { IsFormed t.now.nodes.now }
    requires parents { AreParents t.now.nodes.now t.now.parents.now }
    requires keys { AreKeys t.now.nodes.now t.now.keys.now }
    requires blocks { AreBlocks t.now.nodes.now t.now.blocks.now }
    ensures { IfOk result (λ v. ListsAll (λ x. x.node) (IsBinding t.now.nodes.now) v.items) }
{
    let mut list = Vec::new(alloc);
    for k in 0..t.nodes.len() {
        add(&mut list, bring(t, k))?;
    }
    Ok(list)
}

/// All that the nodes declare outside functions.
fn list_tops(alloc: Global, t: &Tables) -> Result<Vec<TopName>, Memory>
    requires parents { AreParents t.now.nodes.now t.now.parents.now }
    requires blocks { AreBlocks t.now.nodes.now t.now.blocks.now }
    requires receivers { AreMarks t.now.nodes.now Parameters t.now.receivers.now }
    ensures { IfOk result (λ v. ListsAll (λ x. x.node) (IsTopDeclared t.now.nodes.now) v.items) }
{
    let mut list = Vec::new(alloc);
    for k in 0..t.nodes.len() {
        add(&mut list, top_at(t, k))?;
    }
    Ok(list)
}

/// All members of packages that the nodes may name.
fn list_dotted(
    alloc: Global,
    nodes: &[TreeNode],
    parents: &[Option<usize>],
) -> Result<Vec<QualifiedName>, Memory>
    requires { AreParents nodes.now parents.now }
    ensures { IfOk result (λ v. ListsAll (λ x. x.node) (IsMemberName nodes.now) v.items) }
{
    let mut list = Vec::new(alloc);
    for k in 0..nodes.len() {
        add(&mut list, member_at(nodes, parents, k))?;
    }
    Ok(list)
}

/// The name that node k looks up, where it does.
fn seen(nodes: &[TreeNode], parents: &[Option<usize>], k: usize) -> Option<Lookup>
    ensures { result ≡ seen_of nodes.now parents.now k }
{
    match looked_at(nodes, parents, k) {
        Some(token) => Some(Lookup {
            node: k,
            token,
            key: is_key(nodes, parents, k),
        }),
        None => None,
    }
}

/// All names that the nodes look up.
fn list_looked(
    alloc: Global,
    nodes: &[TreeNode],
    parents: &[Option<usize>],
) -> Result<Vec<Lookup>, Memory>
    requires { AreParents nodes.now parents.now }
    ensures { IfOk result (λ v. ListsAll (λ x. x.node) (IsSeen nodes.now) v.items) }
{
    let mut list = Vec::new(alloc);
    for k in 0..nodes.len() {
        add(&mut list, seen(nodes, parents, k))?;
    }
    Ok(list)
}

/// What the nodes of a file bring and look up.
pub fn bindings_of(alloc: Global, file: &File) -> Result<Bindings, Memory>
    ensures { IfOk result (AreBindings file.now.nodes) }
{
    let nodes = file.nodes();
    let parents = file.parents();
    let blocks = blocks_of(alloc, nodes)?;
    let tables = Tables {
        nodes,
        parents,
        keys: file.keys(),
        receivers: file.receivers(),
        blocks: blocks.as_slice(),
    };
    let brought = list_brought(alloc, &tables)?;
    let tops = list_tops(alloc, &tables)?;
    let looked = list_looked(alloc, nodes, parents)?;
    let dotted = list_dotted(alloc, nodes, parents)?;
    let marks = marks_of(alloc, nodes, parents, Wanted::TypeParameters)?;
    let generics = generics_of(alloc, nodes, &marks, count_tokens(nodes))?;
    Ok(Bindings {
        blocks,
        brought,
        tops,
        looked,
        dotted,
        generics,
        dot: has_dot(nodes),
    })
}
