// The first name of a block with the text of a later one.
ghost use Rattle.std.specs.Prelude.{◌≡◌, ◌<◌, true, false, length, slice_get};
ghost use Rattle.argot_names_scopes.specs.Earliest.{IsEarliest, IsFirstItem};
ghost use Rattle.argot_names_scopes.specs.News.{HasEarlierIn};
ghost use Rattle.argot_names_scopes.specs.Tables.{AreFirstNames};

use crate::firsts::item_at;
use crate::texts::spelled_at;
use argot_names_blocks::Binding;
use argot_tree::Token;
use indexmap::IndexMap;

/// The first name of the block with this text; none where it has none.
fn first_item(
    bytes: &[u8],
    tokens: &[Token],
    brought: &[Binding],
    firsts: &IndexMap<(u32, &[u8]), usize>,
    opens: u32,
    text: &[u8],
) -> Option<Binding>
    requires { AreFirstNames bytes.now tokens.now brought.now (length brought.now) firsts.now }
    ensures { IsFirstItem bytes.now tokens.now brought.now opens text.now result }
{
    match firsts.get(&(opens, text)).copied() {
        Some(k) => Some(item_at(brought, k)),
        None => None,
    }
}

/// The first name that the block has with the text of a later token; none where it has none.
pub fn earliest_of(
    bytes: &[u8],
    tokens: &[Token],
    brought: &[Binding],
    firsts: &IndexMap<(u32, &[u8]), usize>,
    token: u32,
    opens: u32,
) -> Option<Binding>
    requires { AreFirstNames bytes.now tokens.now brought.now (length brought.now) firsts.now }
    ensures { IsEarliest bytes.now tokens.now brought.now token opens (length brought.now) result }
{
    let text = spelled_at(bytes, tokens, token);
    match first_item(bytes, tokens, brought, firsts, opens, text) {
        Some(b) => { if b.token < token { Some(b) } else { None } }
        None => None,
    }
}

/// Whether the block has the name of the token from an earlier place.
pub fn has_earlier(
    bytes: &[u8],
    tokens: &[Token],
    brought: &[Binding],
    firsts: &IndexMap<(u32, &[u8]), usize>,
    token: u32,
    opens: u32,
) -> bool
    requires { AreFirstNames bytes.now tokens.now brought.now (length brought.now) firsts.now }
    ensures there { result ≡ true → HasEarlierIn bytes.now tokens.now brought.now token opens }
    ensures none { result ≡ false → HasEarlierIn bytes.now tokens.now brought.now token opens → ⊥ }
{
    match earliest_of(bytes, tokens, brought, firsts, token, opens) {
        Some(_) => true,
        None => false,
    }
}
