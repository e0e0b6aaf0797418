// The two calls, by the kinds of the constants.
ghost use Rattle.std.specs.Prelude.{◌≡◌};
ghost use Rattle.argot_consts.specs.Fold.{fold_of, fold_one_of, fold_wholes as wholes_of, fold_texts as texts_of, fold_truths as truths_of};

use crate::constants::{Const, ConstFault};
use crate::halves::{Half, half_of};
use crate::operators::{Binary, Unary};
use crate::wholes;

/// The value of the operator on two constants.
///
/// A whole number is computed exactly: a quotient is rounded toward zero, a remainder has the
/// dividend's sign, a right shift rounds down, and the operators on bits see two's complement of
/// unlimited width. The sum of two texts has the sum of their lengths, and a comparison or an operator
/// on truth values gives a truth value. The fault is `Mismatched` where the operator doesn't take these
/// kinds or a shift count is negative, else `DivideByZero` where a whole divisor is 0, else `TooWide`
/// where the number has no 128 signed bits or the length no 64. No memory.
pub fn fold(op: Binary, a: Const, b: Const) -> Result<Const, ConstFault>
    ensures { result ≡ fold_of op a b }
{
    match (a, b) {
        (Const::Whole(a), Const::Whole(b)) => fold_wholes(op, a, b),
        (Const::Text(m), Const::Text(n)) => fold_texts(op, m, n),
        (Const::Truth, Const::Truth) => fold_truths(op),
        _ => Err(ConstFault::Mismatched),
    }
}

/// The value of the operator on one constant: `+`, `-` and `^` take a whole number, `!` a truth value,
/// and the others no constant. The faults are those of `fold`. No memory.
pub fn fold_one(op: Unary, a: Const) -> Result<Const, ConstFault>
    ensures { result ≡ fold_one_of op a }
{
    match (op, a) {
        (Unary::Same, Const::Whole(a)) => Ok(Const::Whole(a)),
        (Unary::Negate, Const::Whole(a)) => wholes::negation(a),
        (Unary::Complement, Const::Whole(a)) => Ok(Const::Whole(wholes::complement(a))),
        (Unary::Not, Const::Truth) => Ok(Const::Truth),
        _ => Err(ConstFault::Mismatched),
    }
}

fn fold_wholes(op: Binary, a: i128, b: i128) -> Result<Const, ConstFault>
    ensures { result ≡ wholes_of op a b }
{
    match op {
        Binary::Times => wholes::product(a, b),
        Binary::Divide => wholes::quotient(a, b),
        Binary::Remainder => wholes::remainder(a, b),
        Binary::ShiftLeft => match half_of(b) {
            Half::From(count) => wholes::left_shift(a, count),
            Half::Below(_) => Err(ConstFault::Mismatched),
        },
        Binary::ShiftRight => match half_of(b) {
            Half::From(count) => Ok(Const::Whole(wholes::right_shift(a, count))),
            Half::Below(_) => Err(ConstFault::Mismatched),
        },
        Binary::BitAnd => Ok(Const::Whole(wholes::both_bits(a, b))),
        Binary::BitClear => Ok(Const::Whole(wholes::cleared_bits(a, b))),
        Binary::Plus => wholes::sum(a, b),
        Binary::Minus => wholes::difference(a, b),
        Binary::BitOr => Ok(Const::Whole(wholes::either_bits(a, b))),
        Binary::BitXor => Ok(Const::Whole(wholes::unlike_bits(a, b))),
        Binary::Equal
        | Binary::NotEqual
        | Binary::Less
        | Binary::AtMost
        | Binary::Greater
        | Binary::AtLeast => Ok(Const::Truth),
        Binary::Both | Binary::Either => Err(ConstFault::Mismatched),
    }
}

fn fold_texts(op: Binary, m: u64, n: u64) -> Result<Const, ConstFault>
    ensures { result ≡ texts_of op m n }
{
    match op {
        Binary::Plus => match m.checked_add(n) {
            Some(len) => Ok(Const::Text(len)),
            None => Err(ConstFault::TooWide),
        },
        Binary::Equal
        | Binary::NotEqual
        | Binary::Less
        | Binary::AtMost
        | Binary::Greater
        | Binary::AtLeast => Ok(Const::Truth),
        _ => Err(ConstFault::Mismatched),
    }
}

fn fold_truths(op: Binary) -> Result<Const, ConstFault>
    ensures { result ≡ truths_of op }
{
    match op {
        Binary::Equal | Binary::NotEqual | Binary::Both | Binary::Either => Ok(Const::Truth),
        _ => Err(ConstFault::Mismatched),
    }
}
