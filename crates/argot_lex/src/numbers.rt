// Numbers: one automaton that reads on as long as a number may still come, and remembers the longest.
ghost use Rattle.std.specs.Prelude.{◌≡◌, ◌≤◌, length};
ghost use Rattle.argot_lex.specs.Numbers.{sort_of, is_decimal, is_octal, is_binary, is_hex, goes_on, in_run, behind_decimals, behind_zero, behind_lead, behind_bar, behind_hex, imaginary, power, hex_dot, behind_fraction, first, behind_power, behind_point, behind_hex_point, next, next_behind_letter, next_hex, accepted, improved, number_front};

use argot_tree::TokenKind;

/// What a byte is to a number.
#[derive(Clone, Copy, Debug, PartialEq, Eq)]
pub enum Sort {
    Zero,
    One,
    TwoToSeven,
    EightOrNine,
    /// `a c d f` and their capitals.
    HexLetter,
    LetterB,
    LetterE,
    /// `i` alone.
    LetterI,
    LetterO,
    LetterP,
    LetterX,
    Bar,
    Point,
    Sign,
    Other,
}

/// What has been read of a number.
#[derive(Clone, Copy, Debug, PartialEq, Eq)]
pub enum State {
    Start,
    /// `0`
    Zero,
    /// Octal digits behind `0`.
    Lead,
    LeadBar,
    /// Decimal digits behind `0` that are no octal ones.
    Mixed,
    MixedBar,
    Decimal,
    DecimalBar,
    /// `0b`
    BinaryMark,
    BinaryBar,
    Binary,
    /// `0o`
    OctalMark,
    OctalBar,
    Octal,
    /// `0x`
    HexMark,
    HexBar,
    Hex,
    /// Hexadecimal digits and a point.
    HexPoint,
    /// `0x.`
    HexDot,
    HexFraction,
    HexFractionBar,
    /// Decimal digits and a point.
    Point,
    /// A point alone.
    Dot,
    Fraction,
    FractionBar,
    ExponentMark,
    ExponentSign,
    Exponent,
    ExponentBar,
    Imaginary,
}

#[tactic(auto, unfolding(crate::specs::Numbers::sort_of))]
fn sort_of(b: u8) -> Sort
    ensures { result ≡ sort_of b }
{
    match b {
        b'0' => Sort::Zero,
        b'1' => Sort::One,
        b'2'..=b'7' => Sort::TwoToSeven,
        b'8' | b'9' => Sort::EightOrNine,
        b'b' | b'B' => Sort::LetterB,
        b'e' | b'E' => Sort::LetterE,
        b'a'..=b'f' | b'A'..=b'F' => Sort::HexLetter,
        b'i' => Sort::LetterI,
        b'o' | b'O' => Sort::LetterO,
        b'p' | b'P' => Sort::LetterP,
        b'x' | b'X' => Sort::LetterX,
        b'_' => Sort::Bar,
        b'.' => Sort::Point,
        b'+' | b'-' => Sort::Sign,
        _ => Sort::Other,
    }
}

fn is_binary(sort: Sort) -> bool
    ensures { result ≡ is_binary sort }
{
    matches!(sort, Sort::Zero | Sort::One)
}

fn is_octal(sort: Sort) -> bool
    ensures { result ≡ is_octal sort }
{
    matches!(sort, Sort::Zero | Sort::One | Sort::TwoToSeven)
}

fn is_decimal(sort: Sort) -> bool
    ensures { result ≡ is_decimal sort }
{
    matches!(
        sort,
        Sort::Zero | Sort::One | Sort::TwoToSeven | Sort::EightOrNine
    )
}

fn is_hex(sort: Sort) -> bool
    ensures { result ≡ is_hex sort }
{
    matches!(
        sort,
        Sort::Zero
            | Sort::One
            | Sort::TwoToSeven
            | Sort::EightOrNine
            | Sort::HexLetter
            | Sort::LetterB
            | Sort::LetterE
    )
}

// That state where the digit is one of the base.
fn goes_on(digit: bool, to: State) -> Option<State>
    ensures { result ≡ goes_on digit to }
{
    if digit { Some(to) } else { None }
}

// Digits of a base, with `_` between them, and otherwise what may follow.
fn in_run(digit: bool, sort: Sort, to: State, bar: State, other: Option<State>) -> Option<State>
    ensures { result ≡ in_run digit sort to bar other }
{
    if digit {
        return Some(to);
    }
    match sort {
        Sort::Bar => Some(bar),
        _ => other,
    }
}

// What may follow decimal digits.
fn behind_decimals(sort: Sort) -> Option<State>
    ensures { result ≡ behind_decimals sort }
{
    match sort {
        Sort::Point => Some(State::Point),
        Sort::LetterE => Some(State::ExponentMark),
        Sort::LetterI => Some(State::Imaginary),
        _ => None,
    }
}

// What may follow `0` and octal digits.
fn behind_lead(sort: Sort) -> Option<State>
    ensures { result ≡ behind_lead sort }
{
    match sort {
        Sort::Zero | Sort::One | Sort::TwoToSeven => Some(State::Lead),
        Sort::EightOrNine => Some(State::Mixed),
        Sort::Bar => Some(State::LeadBar),
        Sort::Point => Some(State::Point),
        Sort::LetterE => Some(State::ExponentMark),
        Sort::LetterI => Some(State::Imaginary),
        _ => None,
    }
}

fn behind_bar(sort: Sort) -> Option<State>
    ensures { result ≡ behind_bar sort }
{
    match sort {
        Sort::EightOrNine => Some(State::Mixed),
        _ => goes_on(is_octal(sort), State::Lead),
    }
}

fn behind_zero(sort: Sort) -> Option<State>
    ensures { result ≡ behind_zero sort }
{
    match sort {
        Sort::LetterB => Some(State::BinaryMark),
        Sort::LetterO => Some(State::OctalMark),
        Sort::LetterX => Some(State::HexMark),
        _ => behind_lead(sort),
    }
}

// What may follow hexadecimal digits without a point.
fn behind_hex(sort: Sort) -> Option<State>
    ensures { result ≡ behind_hex sort }
{
    match sort {
        Sort::Point => Some(State::HexPoint),
        Sort::LetterP => Some(State::ExponentMark),
        Sort::LetterI => Some(State::Imaginary),
        _ => None,
    }
}

// An `i` ends any number.
fn imaginary(sort: Sort) -> Option<State>
    ensures { result ≡ imaginary sort }
{
    match sort {
        Sort::LetterI => Some(State::Imaginary),
        _ => None,
    }
}

// `p` begins the exponent of a hexadecimal number.
fn power(sort: Sort) -> Option<State>
    ensures { result ≡ power sort }
{
    match sort {
        Sort::LetterP => Some(State::ExponentMark),
        _ => None,
    }
}

// A point behind `0x`.
fn hex_dot(sort: Sort) -> Option<State>
    ensures { result ≡ hex_dot sort }
{
    match sort {
        Sort::Point => Some(State::HexDot),
        _ => None,
    }
}

// What may follow the digits of a fraction.
fn behind_fraction(sort: Sort) -> Option<State>
    ensures { result ≡ behind_fraction sort }
{
    match sort {
        Sort::LetterE => Some(State::ExponentMark),
        Sort::LetterI => Some(State::Imaginary),
        _ => None,
    }
}

// The first byte.
fn first(sort: Sort) -> Option<State>
    ensures { result ≡ first sort }
{
    match sort {
        Sort::Zero => Some(State::Zero),
        Sort::Point => Some(State::Dot),
        _ => goes_on(is_decimal(sort), State::Decimal),
    }
}

// What follows the letter of an exponent.
fn behind_power(sort: Sort) -> Option<State>
    ensures { result ≡ behind_power sort }
{
    match sort {
        Sort::Sign => Some(State::ExponentSign),
        _ => goes_on(is_decimal(sort), State::Exponent),
    }
}

fn behind_point(sort: Sort) -> Option<State>
    ensures { result ≡ behind_point sort }
{
    if is_decimal(sort) {
        return Some(State::Fraction);
    }
    behind_fraction(sort)
}

fn behind_hex_point(sort: Sort) -> Option<State>
    ensures { result ≡ behind_hex_point sort }
{
    if is_hex(sort) {
        return Some(State::HexFraction);
    }
    power(sort)
}

// The same of hexadecimal numbers.
fn next_hex(state: State, sort: Sort) -> Option<State>
    ensures { result ≡ next_hex state sort }
{
    match state {
        State::HexMark => in_run(is_hex(sort), sort, State::Hex, State::HexBar, hex_dot(sort)),
        State::HexBar => goes_on(is_hex(sort), State::Hex),
        State::Hex => in_run(
            is_hex(sort),
            sort,
            State::Hex,
            State::HexBar,
            behind_hex(sort),
        ),
        State::HexPoint => behind_hex_point(sort),
        State::HexDot => goes_on(is_hex(sort), State::HexFraction),
        State::HexFraction => in_run(
            is_hex(sort),
            sort,
            State::HexFraction,
            State::HexFractionBar,
            power(sort),
        ),
        State::HexFractionBar => goes_on(is_hex(sort), State::HexFraction),
        _ => None,
    }
}

// The same of binary and octal numbers and of exponents.
fn next_behind_letter(state: State, sort: Sort) -> Option<State>
    ensures { result ≡ next_behind_letter state sort }
{
    match state {
        State::BinaryMark => in_run(is_binary(sort), sort, State::Binary, State::BinaryBar, None),
        State::BinaryBar => goes_on(is_binary(sort), State::Binary),
        State::Binary => in_run(
            is_binary(sort),
            sort,
            State::Binary,
            State::BinaryBar,
            imaginary(sort),
        ),
        State::OctalMark => in_run(is_octal(sort), sort, State::Octal, State::OctalBar, None),
        State::OctalBar => goes_on(is_octal(sort), State::Octal),
        State::Octal => in_run(
            is_octal(sort),
            sort,
            State::Octal,
            State::OctalBar,
            imaginary(sort),
        ),
        State::ExponentMark => behind_power(sort),
        State::ExponentSign => goes_on(is_decimal(sort), State::Exponent),
        State::Exponent => in_run(
            is_decimal(sort),
            sort,
            State::Exponent,
            State::ExponentBar,
            imaginary(sort),
        ),
        State::ExponentBar => goes_on(is_decimal(sort), State::Exponent),
        _ => next_hex(state, sort),
    }
}

// What one more byte makes of what has been read; None where no number goes on so.
fn next(state: State, sort: Sort) -> Option<State>
    ensures { result ≡ next state sort }
{
    match state {
        State::Start => first(sort),
        State::Zero => behind_zero(sort),
        State::Lead => behind_lead(sort),
        State::LeadBar => behind_bar(sort),
        State::Mixed => in_run(
            is_decimal(sort),
            sort,
            State::Mixed,
            State::MixedBar,
            behind_decimals(sort),
        ),
        State::MixedBar => goes_on(is_decimal(sort), State::Mixed),
        State::Decimal => in_run(
            is_decimal(sort),
            sort,
            State::Decimal,
            State::DecimalBar,
            behind_decimals(sort),
        ),
        State::DecimalBar => goes_on(is_decimal(sort), State::Decimal),
        State::Point => behind_point(sort),
        State::Dot => goes_on(is_decimal(sort), State::Fraction),
        State::Fraction => in_run(
            is_decimal(sort),
            sort,
            State::Fraction,
            State::FractionBar,
            behind_fraction(sort),
        ),
        State::FractionBar => goes_on(is_decimal(sort), State::Fraction),
        _ => next_behind_letter(state, sort),
    }
}

// The number that has been read, if it is one.
fn accepted(state: State) -> Option<TokenKind>
    ensures { result ≡ accepted state }
{
    match state {
        State::Zero | State::Lead | State::Decimal | State::Binary | State::Octal | State::Hex =>
            Some(TokenKind::Whole),
        State::Point | State::Fraction | State::Exponent => Some(TokenKind::Float),
        State::Imaginary => Some(TokenKind::Imaginary),
        _ => None,
    }
}

// The longest number so far, behind n bytes.
fn improved(state: State, n: usize, best: Option<(TokenKind, usize)>) -> Option<(TokenKind, usize)>
    ensures { result ≡ improved state n best }
{
    match accepted(state) {
        Some(kind) => Some((kind, n)),
        None => best,
    }
}

/// The longest number at the front, and its length.
pub fn number_front(bytes: &[u8]) -> Option<(TokenKind, usize)>
    ensures { result ≡ number_front bytes.now }
{
    let mut state = State::Start;
    let mut best = None;
    let mut n = 0;
    while n < bytes.len() {
        let Some(to) = next(state, sort_of(bytes[n])) else {
            return best;
        };
        n += 1;
        state = to;
        best = improved(state, n, best);
    }
    best
}
