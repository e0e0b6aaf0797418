// Which of the names that come into blocks are new.
ghost use Rattle.std.specs.Prelude.{◌≡◌, IfOk, true, false, length};
ghost use Rattle.argot_names_scopes.specs.News.{IsNewIn, AreNews};
ghost use Rattle.argot_names_scopes.specs.Tables.{AreFirstNames};

use crate::earliest::has_earlier;
use crate::firsts::item_at;
use crate::texts::is_blank;
use argot_names_blocks::{Binding, BindingKind};
use argot_text::Memory;
use argot_tree::Token;
use indexmap::IndexMap;
use std::alloc::Global;

/// Whether the item is new.
fn is_new(
    bytes: &[u8],
    tokens: &[Token],
    brought: &[Binding],
    firsts: &IndexMap<(u32, &[u8]), usize>,
    item: Binding,
) -> bool
    requires { AreFirstNames bytes.now tokens.now brought.now (length brought.now) firsts.now }
    ensures there { result ≡ true → IsNewIn bytes.now tokens.now brought.now item.manner item.token item.opens }
    ensures none { result ≡ false → IsNewIn bytes.now tokens.now brought.now item.manner item.token item.opens → ⊥ }
{
    match item.manner {
        BindingKind::Defined => !is_blank(bytes, tokens, item.token)
            && !has_earlier(bytes, tokens, brought, firsts, item.token, item.opens),
        _ => true,
    }
}

/// For each item whether it is new; by the table of first names.
pub fn news_of(
    alloc: Global,
    bytes: &[u8],
    tokens: &[Token],
    brought: &[Binding],
    firsts: &IndexMap<(u32, &[u8]), usize>,
) -> Result<Vec<bool>, Memory>
    requires { AreFirstNames bytes.now tokens.now brought.now (length brought.now) firsts.now }
    ensures { IfOk result (λ v. AreNews bytes.now tokens.now brought.now v.items) }
{
    let mut news = Vec::new(alloc);
    for k in 0..brought.len() {
        news.push(is_new(bytes, tokens, brought, firsts, item_at(brought, k)))?;
    }
    Ok(news)
}
