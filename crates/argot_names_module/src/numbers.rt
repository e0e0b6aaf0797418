// Two numbers with a dot between them.
ghost use Rattle.std.specs.Prelude.{◌≡◌, ◌≤◌, ◌<◌, ◌^◌, ◌+◌, ◌*◌, ℕ, List, ◌∷◌, true, false, drop, take_while, length, IfSome, IfNone};
ghost use Rattle.std.specs.List.{prefix_len};
ghost use Rattle.std.specs.Char.{digit_value};
ghost use Rattle.argot_tree.specs.Literals.{are_digits, value_of};
ghost use Rattle.argot_names_rules.specs.GoMod.{HasNumbers};
ghost use Rattle.argot_names_module.specs.Lines.{is_decimal};

use crate::lines::is_some;

/// Whether the byte is a decimal digit.
fn is_decimal(b: u8) -> bool
    ensures { result ≡ is_decimal b }
{
    char::from(b).is_digit(10)
}

/// How many decimal digits stand at the front.
fn digits_len(text: &[u8]) -> usize
    ensures len { result ≡ prefix_len is_decimal text.now }
    ensures within { result ≤ length text.now }
{
    for (i, b) in text.iter().enumerate() {
        if !is_decimal(*b) {
            return i;
        }
    }
    text.len()
}

/// The digits at the front.
fn digits_of(text: &[u8]) -> &[u8]
    ensures { result.now ≡ take_while is_decimal text.now }
{
    &text[..digits_len(text)]
}

/// What stands behind them.
fn behind_digits(text: &[u8]) -> &[u8]
    ensures { result.now ≡ drop (prefix_len is_decimal text.now) text.now }
{
    &text[digits_len(text)..]
}

/// What stands behind a dot at the front.
fn behind_dot(text: &[u8]) -> Option<&[u8]>
    ensures some { IfSome result (λ rest. text.now ≡ 46 ∷ rest.now) }
    ensures none { IfNone result ((rest : List ℕ) → text.now ≡ 46 ∷ rest → ⊥) }
{
    match text {
        [b'.', rest @ ..] => Some(rest),
        _ => None,
    }
}

/// The value of a decimal digit.
fn digit(b: u8) -> Option<u32>
    ensures some { IfSome result (λ n. n ≡ digit_value b) }
    ensures below { IfSome result (λ n. n < 10) }
    ensures none { IfNone result (is_decimal b ≡ false) }
{
    char::from(b).to_digit(10)
}

/// A number with one digit more, where it fits.
fn push_digit(value: u32, digit: u32) -> Option<u32>
    requires { digit < 10 }
    ensures some { IfSome result (λ n. n ≡ value * 10 + digit) }
    ensures fits { IfSome result (λ n. n < 2 ^ 32) }
    ensures none { IfNone result (2 ^ 32 ≤ value * 10 + digit) }
{
    let next = u64::from(value) * 10 + u64::from(digit);
    if next > 0xffff_ffff {
        return None;
    }
    Some(next as u32)
}

/// The number that decimal digits write, where it fits; none where one is no digit.
fn value_of(digits: &[u8]) -> Option<u32>
    ensures some { IfSome result (λ n. n ≡ value_of 10 digits.now) }
    ensures fits { IfSome result (λ n. n < 2 ^ 32) }
    ensures none { IfNone result (are_digits 10 digits.now ≡ true → 2 ^ 32 ≤ value_of 10 digits.now) }
{
    let mut value: u32 = 0;
    for b in digits {
        let Some(digit) = digit(*b) else {
            return None;
        };
        let Some(next) = push_digit(value, digit) else {
            return None;
        };
        value = next;
    }
    Some(value)
}

/// The numbers before and behind the first dot, where each has a digit and fits; what stands behind the second doesn't count.
/// No memory.
pub fn numbers_of(word: &[u8]) -> Option<(u32, u32)>
    ensures some { IfSome result (λ n. HasNumbers word.now n.0 n.1) }
    ensures none { IfNone result ((major minor : ℕ) → HasNumbers word.now major minor → ⊥) }
{
    let front = digits_of(word);
    let Some(rest) = behind_dot(behind_digits(word)) else {
        return None;
    };
    let back = digits_of(rest);
    if !is_some(front) {
        return None;
    }
    if !is_some(back) {
        return None;
    }
    let Some(major) = value_of(front) else {
        return None;
    };
    let Some(minor) = value_of(back) else {
        return None;
    };
    Some((major, minor))
}
