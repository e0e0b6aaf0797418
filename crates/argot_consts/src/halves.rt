// Whole numbers by the half of the line on which they lie, and the operators on bits over them.
ghost use Rattle.std.specs.Prelude.{◌≡◌};
ghost use Rattle.argot_consts.specs.Halves.{whole_of, IsNarrow};
ghost use Rattle.argot_consts.specs.Whole.{and_of, or_of, xor_of, complement_of, shifted_right};

/// A whole number: `From(n)` is n, `Below(n)` is -1 - n.
#[derive(Clone, Copy)]
pub enum Half {
    From(u128),
    Below(u128),
}

/// The half of a number.
pub fn half_of(z: i128) -> Half
    ensures value { whole_of result ≡ z }
    ensures narrow { IsNarrow result }
{
    if z < 0 {
        Half::Below((-1 - z) as u128)
    } else {
        Half::From(z as u128)
    }
}

/// The number of a half.
pub fn number_of(half: Half) -> i128
    requires { IsNarrow half }
    ensures { result ≡ whole_of half }
{
    match half {
        Half::From(n) => n as i128,
        Half::Below(n) => -1 - n as i128,
    }
}

/// The bits that both have.
#[tactic(auto, using(crate::proofs::Narrow::or_narrow))]
pub fn and_halves(a: Half, b: Half) -> Half
    requires a { IsNarrow a }
    requires b { IsNarrow b }
    ensures value { whole_of result ≡ and_of (whole_of a) (whole_of b) }
    ensures narrow { IsNarrow result }
{
    match (a, b) {
        (Half::From(m), Half::From(n)) => Half::From(m & n),
        (Half::From(m), Half::Below(n)) => Half::From(m - (m & n)),
        (Half::Below(m), Half::From(n)) => Half::From(n - (n & m)),
        (Half::Below(m), Half::Below(n)) => Half::Below(m | n),
    }
}

/// The bits that one has.
#[tactic(auto, using(crate::proofs::Narrow::or_narrow))]
pub fn or_halves(a: Half, b: Half) -> Half
    requires a { IsNarrow a }
    requires b { IsNarrow b }
    ensures value { whole_of result ≡ or_of (whole_of a) (whole_of b) }
    ensures narrow { IsNarrow result }
{
    match (a, b) {
        (Half::From(m), Half::From(n)) => Half::From(m | n),
        (Half::From(m), Half::Below(n)) => Half::Below(n - (n & m)),
        (Half::Below(m), Half::From(n)) => Half::Below(m - (m & n)),
        (Half::Below(m), Half::Below(n)) => Half::Below(m & n),
    }
}

/// The bits that exactly one has.
#[tactic(auto, using(crate::proofs::Narrow::xor_narrow))]
pub fn xor_halves(a: Half, b: Half) -> Half
    requires a { IsNarrow a }
    requires b { IsNarrow b }
    ensures value { whole_of result ≡ xor_of (whole_of a) (whole_of b) }
    ensures narrow { IsNarrow result }
{
    match (a, b) {
        (Half::From(m), Half::From(n)) => Half::From(m ^ n),
        (Half::From(m), Half::Below(n)) => Half::Below(m ^ n),
        (Half::Below(m), Half::From(n)) => Half::Below(m ^ n),
        (Half::Below(m), Half::Below(n)) => Half::From(m ^ n),
    }
}

/// Each bit turned.
pub fn complement_half(a: Half) -> Half
    ensures value { whole_of result ≡ complement_of (whole_of a) }
    ensures narrow { IsNarrow a → IsNarrow result }
{
    match a {
        Half::From(n) => Half::Below(n),
        Half::Below(n) => Half::From(n),
    }
}
