// The value of a text literal.
ghost use Rattle.std.specs.Prelude.{◌≡◌, ◌++◌, ◌∷◌, ◌==◌, ℕ, List, [], not, filter, IfOk, IfSome, IfNone};
ghost use Rattle.argot_names_rules.specs.TextValues.{ElementsValue, TextValue};

use crate::escapes::{element_step, push_stands, rest};
use argot_text::Memory;
use std::alloc::Global;

// What stands between double quotes, as bytes; none where it has no value.
fn elements_value(alloc: Global, inner: &[u8]) -> Result<Option<Vec<u8>>, Memory>
    ensures some { IfOk result (λ o. IfSome o (λ v. ElementsValue inner.now v.items)) }
    ensures none { IfOk result (λ o. IfNone o ((value : List ℕ) → ElementsValue inner.now value → ⊥)) }
{
    let mut out = Vec::new(alloc);
    let mut at = 0;
    while at < inner.len() {
        let Some((size, stands)) = element_step(rest(inner, at)) else {
            return Ok(None);
        };
        push_stands(&mut out, stands)?;
        at += size;
    }
    Ok(Some(out))
}

// What stands between backquotes: carriage returns are left out.
fn raw_value(alloc: Global, inner: &[u8]) -> Result<Vec<u8>, Memory>
    ensures { IfOk result (λ v. v.items ≡ filter (λ c. not (c == 13)) inner.now) }
{
    let mut out = Vec::new(alloc);
    for b in inner {
        if *b != b'\r' {
            out.push(*b)?;
        }
    }
    Ok(out)
}

// What stands between two quotes at the ends.
fn between(quote: u8, literal: &[u8]) -> Option<&[u8]>
    ensures some { IfSome result (λ inner. literal.now ≡ quote ∷ (inner.now ++ quote ∷ [])) }
    ensures none { IfNone result ((inner : List ℕ) → literal.now ≡ quote ∷ (inner ++ quote ∷ []) → ⊥) }
{
    let (first, behind) = literal.split_first()?;
    let (last, inner) = behind.split_last()?;
    if *first == quote && *last == quote {
        Some(inner)
    } else {
        None
    }
}

/// The value of a text literal; none where the bytes are no literal.
pub fn text_value(alloc: Global, literal: &[u8]) -> Result<Option<Vec<u8>>, Memory>
    ensures some { IfOk result (λ o. IfSome o (λ v. TextValue literal.now v.items)) }
    ensures none { IfOk result (λ o. IfNone o ((value : List ℕ) → TextValue literal.now value → ⊥)) }
{
    if let Some(inner) = between(b'"', literal) {
        return elements_value(alloc, inner);
    }
    if let Some(inner) = between(b'`', literal) {
        return Ok(Some(raw_value(alloc, inner)?));
    }
    Ok(None)
}
