// The texts of names, and which of these no scope has.
ghost use Rattle.std.specs.Prelude.{◌≡◌, ◌↔◌, IsTrue, codes, true, false, slice_get};
ghost use Rattle.argot_names_rules.specs.PackageScope.{HasScope};
ghost use Rattle.argot_names_blocks.specs.Looking.{sort_of};
ghost use Rattle.argot_names_tops.specs.TopNames.{start_of};

use argot_names_blocks::Sort;
use argot_tree::Token;

/// Whether the name is `_`. No memory.
pub fn is_blank(name: &[u8]) -> bool
    ensures { IsTrue result ↔ (name.now ≡ codes "_") }
{
    name == b"_".as_slice()
}

// Whether the name is `init`.
fn is_init(name: &[u8]) -> bool
    ensures { IsTrue result ↔ (name.now ≡ codes "init") }
{
    name == b"init".as_slice()
}

/// Whether a declaration of that sort brings the name into scope: functions named `init` don't. No memory.
pub fn has_scope(sort: Sort, name: &[u8]) -> bool
    ensures there { result ≡ true → HasScope (sort_of sort) name.now }
    ensures none { result ≡ false → HasScope (sort_of sort) name.now → ⊥ }
{
    match sort {
        Sort::Function => !is_init(name),
        Sort::Value => true,
        Sort::Kind => true,
    }
}

/// The first byte of a token, where there is one. No memory.
pub fn start_of(tokens: &[Token], at: u32) -> Option<u32>
    ensures { result ≡ start_of (slice_get tokens.now at) }
{
    match tokens.get(at as usize) {
        Some(token) => Some(token.start),
        None => None,
    }
}
