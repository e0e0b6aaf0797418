// Operators on two whole numbers, each exact.
ghost use Rattle.std.specs.Prelude.{◌≡◌, ◌^◌, ◌<◌, pos, ◌+ℤ◌, ◌-ℤ◌, ◌*ℤ◌, neg_ℤ, int_div, int_rem};
ghost use Rattle.argot_consts.specs.Fold.{whole_value, divided};
ghost use Rattle.argot_consts.specs.Whole.{shifted_left, shifted_right, and_of, or_of, xor_of, clear_of, complement_of};

use crate::constants::{Const, ConstFault};
use crate::halves::{and_halves, complement_half, half_of, number_of, or_halves, xor_halves};

/// The sum.
pub fn sum(a: i128, b: i128) -> Result<Const, ConstFault>
    ensures { result ≡ whole_value (a +ℤ b) }
{
    match a.checked_add(b) {
        Some(z) => Ok(Const::Whole(z)),
        None => Err(ConstFault::TooWide),
    }
}

/// The difference.
pub fn difference(a: i128, b: i128) -> Result<Const, ConstFault>
    ensures { result ≡ whole_value (a -ℤ b) }
{
    match a.checked_sub(b) {
        Some(z) => Ok(Const::Whole(z)),
        None => Err(ConstFault::TooWide),
    }
}

/// The product.
pub fn product(a: i128, b: i128) -> Result<Const, ConstFault>
    ensures { result ≡ whole_value (a *ℤ b) }
{
    match a.checked_mul(b) {
        Some(z) => Ok(Const::Whole(z)),
        None => Err(ConstFault::TooWide),
    }
}

/// The number with the other sign.
pub fn negation(a: i128) -> Result<Const, ConstFault>
    ensures { result ≡ whole_value (neg_ℤ a) }
{
    match a.checked_neg() {
        Some(z) => Ok(Const::Whole(z)),
        None => Err(ConstFault::TooWide),
    }
}

/// The quotient, rounded toward zero.
pub fn quotient(a: i128, b: i128) -> Result<Const, ConstFault>
    ensures { result ≡ divided (int_div a b) b }
{
    if b == 0 {
        return Err(ConstFault::DivideByZero);
    }
    match a.checked_div(b) {
        Some(z) => Ok(Const::Whole(z)),
        None => Err(ConstFault::TooWide),
    }
}

/// What a division leaves, with the dividend's sign.
pub fn remainder(a: i128, b: i128) -> Result<Const, ConstFault>
    ensures { result ≡ divided (int_rem a b) b }
{
    if b == 0 {
        return Err(ConstFault::DivideByZero);
    }
    if b == -1 {
        return Ok(Const::Whole(0));
    }
    Ok(Const::Whole(a % b))
}

/// 2 to that power.
fn power_of_two(exponent: u32) -> i128
    requires { exponent < 127 }
    ensures { result ≡ pos (2 ^ exponent) }
{
    1 << exponent
}

/// A power of two times the number.
#[tactic(auto, using(crate::proofs::Shifts::left_past))]
pub fn left_shift(a: i128, count: u128) -> Result<Const, ConstFault>
    ensures { result ≡ whole_value (shifted_left a count) }
{
    if a == 0 {
        return Ok(Const::Whole(0));
    }
    if count > 127 {
        return Err(ConstFault::TooWide);
    }
    if count < 127 {
        return product(a, power_of_two(count as u32));
    }
    if a == -1 {
        Ok(Const::Whole(i128::MIN))
    } else {
        Err(ConstFault::TooWide)
    }
}

/// The number without its last bits, rounded down.
pub fn right_shift(a: i128, count: u128) -> i128
    ensures { result ≡ shifted_right a count }
{
    if count < 127 {
        a >> count as u32
    } else if a < 0 {
        -1
    } else {
        0
    }
}

/// The bits that both numbers have.
pub fn both_bits(a: i128, b: i128) -> i128
    ensures { result ≡ and_of a b }
{
    number_of(and_halves(half_of(a), half_of(b)))
}

/// The bits of the first number that the second doesn't have.
pub fn cleared_bits(a: i128, b: i128) -> i128
    ensures { result ≡ clear_of a b }
{
    number_of(and_halves(half_of(a), complement_half(half_of(b))))
}

/// The bits that one of the numbers has.
pub fn either_bits(a: i128, b: i128) -> i128
    ensures { result ≡ or_of a b }
{
    number_of(or_halves(half_of(a), half_of(b)))
}

/// The bits that exactly one of the numbers has.
pub fn unlike_bits(a: i128, b: i128) -> i128
    ensures { result ≡ xor_of a b }
{
    number_of(xor_halves(half_of(a), half_of(b)))
}

/// Each bit turned.
pub fn complement(a: i128) -> i128
    ensures { result ≡ complement_of a }
{
    number_of(complement_half(half_of(a)))
}
