// Folds at the edges of 128 bits and one for each cause. The values are worked out by hand.
use crate::{Binary, Const, ConstFault, Unary, fold, fold_one};
use std::test::Fail;

fn whole(z: i128) -> Result<Const, ConstFault> {
    Ok(Const::Whole(z))
}

#[test]
fn two_wholes(rt: HostRuntime) -> Result<(), Fail> {
    let table = [
        (Binary::Divide, -7, 2, whole(-3)),
        (Binary::Divide, 7, 0, Err(ConstFault::DivideByZero)),
        (Binary::Divide, i128::MIN, -1, Err(ConstFault::TooWide)),
        (Binary::Remainder, -7, 2, whole(-1)),
        (Binary::Remainder, 7, -2, whole(1)),
        (Binary::Remainder, i128::MIN, -1, whole(0)),
        (Binary::Plus, i128::MAX, 1, Err(ConstFault::TooWide)),
        (Binary::Plus, i128::MAX, -1, whole(i128::MAX - 1)),
        (Binary::Minus, i128::MIN, 1, Err(ConstFault::TooWide)),
        (Binary::Times, -1, i128::MIN, Err(ConstFault::TooWide)),
        (Binary::ShiftLeft, 1, 126, whole(1 << 126)),
        (Binary::ShiftLeft, 1, 127, Err(ConstFault::TooWide)),
        (Binary::ShiftLeft, -1, 127, whole(i128::MIN)),
        (Binary::ShiftLeft, 0, i128::MAX, whole(0)),
        (Binary::ShiftLeft, 1, -1, Err(ConstFault::Mismatched)),
        (Binary::ShiftRight, -7, 1, whole(-4)),
        (Binary::ShiftRight, -7, 1000, whole(-1)),
        (Binary::BitAnd, 6, -4, whole(4)),
        (Binary::BitOr, 6, -4, whole(-2)),
        (Binary::BitXor, 6, -4, whole(-6)),
        (Binary::BitClear, 7, -4, whole(3)),
        (Binary::AtMost, 1, 2, Ok(Const::Truth)),
        (Binary::Both, 1, 2, Err(ConstFault::Mismatched)),
    ];
    for (op, a, b, value) in table {
        assert_eq!(rt; fold(op, Const::Whole(a), Const::Whole(b)), value);
    }
    Ok(())
}

#[test]
fn texts_truths_and_one_operand(rt: HostRuntime) -> Result<(), Fail> {
    let (two, three) = (Const::Text(2), Const::Text(3));
    assert_eq!(rt; fold(Binary::Plus, two, three), Ok(Const::Text(5)));
    assert_eq!(rt;
        fold(Binary::Plus, Const::Text(u64::MAX), two),
        Err(ConstFault::TooWide)
    );
    assert_eq!(rt;
        fold(Binary::Plus, two, Const::Whole(1)),
        Err(ConstFault::Mismatched)
    );
    assert_eq!(rt;
        fold(Binary::Less, Const::Truth, Const::Truth),
        Err(ConstFault::Mismatched)
    );
    assert_eq!(rt;
        fold(Binary::Either, Const::Truth, Const::Truth),
        Ok(Const::Truth)
    );
    assert_eq!(rt;
        fold_one(Unary::Negate, Const::Whole(i128::MIN)),
        Err(ConstFault::TooWide)
    );
    assert_eq!(rt; fold_one(Unary::Complement, Const::Whole(5)), whole(-6));
    assert_eq!(rt; fold_one(Unary::Complement, Const::Whole(-1)), whole(0));
    assert_eq!(rt;
        fold_one(Unary::Not, Const::Whole(0)),
        Err(ConstFault::Mismatched)
    );
    Ok(())
}
