// The imports of a file.
ghost use Rattle.std.specs.Prelude.{◌≡◌, ◌<◌, ◌++◌, OnOk, IfOk, IfSome, IfNone};
ghost use Rattle.std.specs.Option.{option_to_list};
ghost use Rattle.argot_names_rules.specs.Lists.{IsListOf};
ghost use Rattle.argot_names_imports.specs.Written.{IsWritten};
ghost use Rattle.argot_names_imports.specs.declared.written.Written.{Written};

use crate::literals::text_value;
use crate::sites::{Site, site_at};
use crate::spelled::spelled_at;
use argot_names_rules::Alias;
use argot_text::{Memory, Sequence};
use argot_tree::{Token, TreeNode};
use std::alloc::Global;

/// An import as it is written.
#[derive(Drop)]
pub struct Written {
    /// Its file.
    pub file: u32,
    /// Its node.
    pub node: u32,
    /// Its first token.
    pub at: u32,
    /// The token of its path.
    pub path_at: u32,
    /// Its own name.
    pub alias: Alias,
    /// The path.
    pub path: Sequence<u8>,
}

// A node as an import, where it is one whose path has a value.
fn written_at(
    alloc: Global,
    file: u32,
    bytes: &[u8],
    tokens: &[Token],
    nodes: &[TreeNode],
    node: u32,
) -> Result<Option<Written>, Memory>
    ensures some { IfOk result (λ o. IfSome o (λ w. (w.node ≡ node) × (w.file ≡ file) × IsWritten (record { bytes = bytes.now; tokens = tokens.now; nodes = nodes.now }) w)) }
    ensures none { IfOk result (λ o. IfNone o ((w : Written) → w.node ≡ node → w.file ≡ file → IsWritten (record { bytes = bytes.now; tokens = tokens.now; nodes = nodes.now }) w → ⊥)) }
{
    let Some(site) = site_at(nodes, node as usize) else {
        return Ok(None);
    };
    let Some(path) = text_value(alloc, spelled_at(bytes, tokens, site.path_at))? else {
        return Ok(None);
    };
    Ok(Some(Written {
        file,
        node,
        at: site.at,
        path_at: site.path_at,
        alias: site.alias,
        path: Sequence::from_vec(path),
    }))
}

// Puts it last, where there is one.
fn push_some(out: &mut Vec<Written>, written: Option<Written>) -> Result<(), Memory>
    ensures { OnOk result (out.new.items ≡ out.old.items ++ option_to_list written) }
{
    if let Some(written) = written {
        out.push(written)?;
    }
    Ok(())
}

/// The imports of a file, by node.
pub fn imports_of(
    alloc: Global,
    file: u32,
    bytes: &[u8],
    tokens: &[Token],
    nodes: &[TreeNode],
) -> Result<Vec<Written>, Memory>
    ensures { IfOk result (λ v. IsListOf (λ (a b : Written). a.node < b.node) (λ w. (w.file ≡ file) × IsWritten (record { bytes = bytes.now; tokens = tokens.now; nodes = nodes.now }) w) v.items) }
{
    let Ok(count) = u32::try_from(nodes.len()) else {
        return Err(Memory);
    };
    let mut out = Vec::new(alloc);
    for node in 0..count {
        push_some(
            &mut out,
            written_at(alloc, file, bytes, tokens, nodes, node)?,
        )?;
    }
    Ok(out)
}
