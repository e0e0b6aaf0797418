// Operators and punctuation.
ghost use Rattle.std.specs.Prelude.{◌≡◌, ◌≤◌, ◌<◌, ◌+◌, ◌^◌, length};
ghost use Rattle.argot_lex.specs.Marks.{single, before_equals, extend, grow, mark_front};

use argot_tree::Mark;

// The mark that is this byte alone.
#[tactic(auto, unfolding(crate::specs::Marks::single))]
fn single(b: u8) -> Option<Mark>
    ensures { result ≡ single b }
{
    match b {
        b'+' => Some(Mark::Plus),
        b'-' => Some(Mark::Minus),
        b'*' => Some(Mark::Star),
        b'/' => Some(Mark::Slash),
        b'%' => Some(Mark::Percent),
        b'&' => Some(Mark::And),
        b'|' => Some(Mark::Or),
        b'^' => Some(Mark::Xor),
        b'<' => Some(Mark::Less),
        b'>' => Some(Mark::Greater),
        b'=' => Some(Mark::Assign),
        b'!' => Some(Mark::Not),
        b'~' => Some(Mark::Tilde),
        b'(' => Some(Mark::OpenParen),
        b')' => Some(Mark::CloseParen),
        b'[' => Some(Mark::OpenBracket),
        b']' => Some(Mark::CloseBracket),
        b'{' => Some(Mark::OpenBrace),
        b'}' => Some(Mark::CloseBrace),
        b',' => Some(Mark::Comma),
        b';' => Some(Mark::Semicolon),
        b'.' => Some(Mark::Dot),
        b':' => Some(Mark::Colon),
        _ => None,
    }
}

// The mark that `=` makes of a mark.
fn before_equals(mark: Mark) -> Option<Mark>
    ensures { result ≡ before_equals mark }
{
    match mark {
        Mark::Plus => Some(Mark::PlusAssign),
        Mark::Minus => Some(Mark::MinusAssign),
        Mark::Star => Some(Mark::StarAssign),
        Mark::Slash => Some(Mark::SlashAssign),
        Mark::Percent => Some(Mark::PercentAssign),
        Mark::And => Some(Mark::AndAssign),
        Mark::Or => Some(Mark::OrAssign),
        Mark::Xor => Some(Mark::XorAssign),
        Mark::ShiftLeft => Some(Mark::ShiftLeftAssign),
        Mark::ShiftRight => Some(Mark::ShiftRightAssign),
        Mark::AndNot => Some(Mark::AndNotAssign),
        Mark::Assign => Some(Mark::Equal),
        Mark::Not => Some(Mark::NotEqual),
        Mark::Less => Some(Mark::LessEqual),
        Mark::Greater => Some(Mark::GreaterEqual),
        Mark::Colon => Some(Mark::Define),
        _ => None,
    }
}

// The mark that one more byte makes of a mark.
#[tactic(auto, unfolding(crate::specs::Marks::extend))]
fn extend(mark: Mark, b: u8) -> Option<Mark>
    ensures { result ≡ extend mark b }
{
    if b == b'=' {
        return before_equals(mark);
    }
    match mark {
        Mark::Plus => (b == b'+').then_some(Mark::Increment),
        Mark::Minus => (b == b'-').then_some(Mark::Decrement),
        Mark::And => {
            if b == b'&' {
                Some(Mark::LogicalAnd)
            } else if b == b'^' {
                Some(Mark::AndNot)
            } else {
                None
            }
        }
        Mark::Or => (b == b'|').then_some(Mark::LogicalOr),
        Mark::Less => {
            if b == b'<' {
                Some(Mark::ShiftLeft)
            } else if b == b'-' {
                Some(Mark::Arrow)
            } else {
                None
            }
        }
        Mark::Greater => (b == b'>').then_some(Mark::ShiftRight),
        _ => None,
    }
}

/// The longest mark at the front but for `...`, and its length.
pub fn mark_front(bytes: &[u8]) -> Option<(Mark, usize)>
    ensures value { result ≡ mark_front bytes.now }
{
    let [first, ..] = bytes else {
        return None;
    };
    let mut mark = single(*first)?;
    let mut n = 1;
    while n < bytes.len() {
        let Some(longer) = extend(mark, bytes[n]) else {
            return Some((mark, n));
        };
        mark = longer;
        n += 1;
    }
    Some((mark, n))
}
