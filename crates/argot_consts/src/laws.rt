// What the definitions of the operators mean: laws, each the contract of a function without code.
ghost use Rattle.argot_consts.specs.Laws.{DivisionIsRight, RightShiftIsRight, BitsAreRight, BitsAreAll};

/// A quotient is rounded toward zero, and a remainder has the dividend's sign.
pub fn division_is_right()
    ensures { DivisionIsRight }
{}

/// A right shift rounds down.
pub fn right_shift_is_right()
    ensures { RightShiftIsRight }
{}

/// The operators on bits go bit by bit, in two's complement of unlimited width.
pub fn bits_are_right()
    ensures { BitsAreRight }
{}

/// Two whole numbers with the same bits are equal.
pub fn bits_are_all()
    ensures { BitsAreAll }
{}
