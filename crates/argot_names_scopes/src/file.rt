// The names of one file's functions.
ghost use Rattle.std.specs.Prelude.{◌≡◌, ◌<◌, ℕ, List, IsNone, IfSome, IfOk, true, false, length};
ghost use Rattle.argot_tree.specs.declared.token.Token.{Token};
ghost use Rattle.argot_tree.specs.Trees.{SpellsTree};
ghost use Rattle.argot_names_rules.specs.Bindings.{HasEarlier};
ghost use Rattle.argot_names_rules.specs.Uses.{IsFirstOf, IsPassedOver};
ghost use Rattle.argot_names_scopes.specs.Files.{file_of, MeansLocal, MeansNoLocal, IsFirstPlace, HasNoPlace};
ghost use Rattle.argot_names_scopes.specs.Names.{AreNames};

use crate::again::first_again;
use crate::earliest::earliest_of;
use crate::firsts::firsts_of;
use crate::links::{Links, links_of};
use crate::meant::local_meant;
use crate::news::news_of;
use crate::shapes::shapes_of;
use argot_files::File;
use argot_names_blocks::{Binding, Bindings, bindings_of};
use argot_text::Memory;
use argot_tree::{Token, Tree};
use indexmap::IndexMap;
use std::alloc::Global;

/// A file with what its nodes bring into scope and look up, and which of the names that come into its blocks are new.
#[derive(Drop)]
pub struct FileNames<'a> {
    pub bytes: &'a [u8],
    pub tokens: &'a [Token],
    pub tree: &'a Tree,
    pub bindings: Bindings,
    pub news: Vec<bool>,
    /// For each block, by its first token, and each text the number of the first name that comes into it.
    pub firsts: IndexMap<(u32, &'a [u8]), usize>,
    /// The new names of each block and text.
    pub links: Links<'a>,
    /// For each shape of a text whether a name that comes into a block has it.
    pub shapes: Vec<bool>,
}

/// The names of a file.
pub fn names_of<'a>(
    alloc: Global,
    bytes: &'a [u8],
    tokens: &'a [Token],
    tree: &'a Tree,
) -> Result<FileNames<'a>, Memory>
    requires { (spelled : List Token) × SpellsTree tree.now spelled }
    ensures bytes { IfOk result (λ n. n.bytes.now ≡ bytes.now) }
    ensures tokens { IfOk result (λ n. n.tokens.now ≡ tokens.now) }
    ensures tree { IfOk result (λ n. n.tree.now ≡ tree.now) }
    ensures names { IfOk result AreNames }
{
    let file = File::new(alloc, bytes, tokens, tree)?;
    let bindings = bindings_of(alloc, &file)?;
    let firsts = firsts_of(alloc, bytes, tokens, &bindings.brought)?;
    let news = news_of(alloc, bytes, tokens, &bindings.brought, &firsts)?;
    let links = links_of(alloc, bytes, tokens, &bindings.brought, &news)?;
    let shapes = shapes_of(alloc, bytes, tokens, &bindings.brought)?;
    Ok(FileNames {
        bytes,
        tokens,
        tree,
        bindings,
        news,
        firsts,
        links,
        shapes,
    })
}

/// The declaration in a function that the name means at the token; none where no such declaration is in scope.
pub fn meant_at(names: &FileNames, token: u32, name: &[u8]) -> Option<Binding>
    requires { AreNames names.now }
    ensures some { IfSome result (MeansLocal (file_of names.now.bytes.now names.now.tokens.now names.now.tree.now.nodes) token name.now) }
    ensures none { IsNone result → MeansNoLocal (file_of names.now.bytes.now names.now.tokens.now names.now.tree.now.nodes) token name.now }
{
    local_meant(names, token, name)
}

/// The first byte of the first name that is declared again in a block of a function; none where there is none.
pub fn redeclared(names: &FileNames) -> Option<u32>
    requires { AreNames names.now }
    ensures some { IfSome result (IsFirstPlace (file_of names.now.bytes.now names.now.tokens.now names.now.tree.now.nodes)) }
    ensures none { IsNone result → HasNoPlace (file_of names.now.bytes.now names.now.tokens.now names.now.tree.now.nodes) }
{
    first_again(
        names.bytes,
        names.tokens,
        &names.bindings.brought,
        &names.firsts,
    )
}

/// The node of the first name that the block has with the text of the token, which stands behind it; none where it has none.
pub fn first_of(names: &FileNames, token: u32, opens: u32) -> Option<Binding>
    requires { AreNames names.now }
    ensures some { IfSome result (λ b. IsFirstOf (file_of names.now.bytes.now names.now.tokens.now names.now.tree.now.nodes) token opens b.node) }
    ensures none { IsNone result → HasEarlier (file_of names.now.bytes.now names.now.tokens.now names.now.tree.now.nodes) token opens → ⊥ }
{
    earliest_of(
        names.bytes,
        names.tokens,
        &names.bindings.brought,
        &names.firsts,
        token,
        opens,
    )
}

/// Whether a name at the token may mean what argot leaves out: the file imports a package under a dot, or the token stands in
/// a declaration with type parameters.
pub fn is_passed_over(names: &FileNames, token: u32) -> bool
    requires names { AreNames names.now }
    requires token { token < length names.now.bindings.generics.items }
    ensures there { result ≡ true → IsPassedOver names.now.tree.now.nodes token }
    ensures none { result ≡ false → IsPassedOver names.now.tree.now.nodes token → ⊥ }
{
    let generic = names.bindings.generics[token as usize];
    names.bindings.dot || generic
}
