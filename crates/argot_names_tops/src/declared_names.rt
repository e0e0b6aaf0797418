// The names that one file declares outside functions, and that are in scope in its package.
ghost use Rattle.std.specs.Prelude.{◌≡◌, ◌<◌, ℕ, ◌++◌, Some, OnOk, IfOk, IfSome, IfNone, length, slice_get};
ghost use Rattle.std.specs.Option.{option_to_list};
ghost use Rattle.argot_names_tops.specs.Collecting.{AreCollected};
ghost use Rattle.argot_names_tops.specs.TopNames.{IsScopedTop, GivesTop};
ghost use Rattle.argot_names_tops.specs.declared.named.Named.{Named};

use crate::named::Named;
use crate::texts::{has_scope, is_blank, start_of};
use argot_files::Place;
use argot_names_blocks::TopName;
use argot_names_scopes::spelled_at;
use argot_text::Memory;
use argot_tree::Token;
use std::alloc::Global;

/// A name that is declared outside functions, as one of its package's scope; none where it isn't in scope.
fn scoped_top<'a>(
    bytes: &'a [u8],
    tokens: &[Token],
    scope: u32,
    file: u32,
    top: TopName,
) -> Option<Named<'a>>
    ensures some { IfSome result (IsScopedTop bytes.now tokens.now scope file top) }
    ensures none { IfNone result ((n : Named) → IsScopedTop bytes.now tokens.now scope file top n → ⊥) }
{
    let name = spelled_at(bytes, tokens, top.token);
    if is_blank(name) || !has_scope(top.sort, name) {
        return None;
    }
    let offset = start_of(tokens, top.token)?;
    Some(Named {
        scope,
        name,
        place: Place { file, offset },
        of: top.node,
    })
}

/// Puts it last, where there is one.
pub fn push_some<'a>(out: &mut Vec<Named<'a>>, named: Option<Named<'a>>) -> Result<(), Memory>
    ensures { OnOk result (out.new.items ≡ out.old.items ++ option_to_list named.entry) }
{
    if let Some(named) = named {
        out.push(named)?;
    }
    Ok(())
}

// The name of this number. No memory.
fn top_at(tops: &[TopName], k: usize) -> TopName
    requires { k < length tops.now }
    ensures { slice_get tops.now k ≡ Some result }
{
    tops[k]
}

/// The names of a file of the package of this number, by node.
pub fn scoped_tops<'a>(
    alloc: Global,
    bytes: &'a [u8],
    tokens: &[Token],
    scope: u32,
    file: u32,
    tops: &[TopName],
) -> Result<Vec<Named<'a>>, Memory>
    ensures { IfOk result (λ v. AreCollected (GivesTop bytes.now tokens.now scope file) tops.now
        (length tops.now) v.items) }
{
    let mut out = Vec::new(alloc);
    for k in 0..tops.len() {
        push_some(
            &mut out,
            scoped_top(bytes, tokens, scope, file, top_at(tops, k)),
        )?;
    }
    Ok(out)
}
