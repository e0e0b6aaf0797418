// Lists of numbers.
ghost use Rattle.std.specs.Prelude.{◌≡◌, drop};
ghost use Rattle.argot_plain.specs.Lists.{member};
ghost use Rattle.argot_plain_parts.specs.Numbers.{all_below, no_number_twice};

/// Whether each number is below the bound.
pub fn all_below(bound: usize, numbers: &[u32]) -> bool
    ensures { result ≡ all_below bound numbers.now }
{
    for i in 0..numbers.len() {
        if numbers[i] as usize >= bound {
            return false;
        }
    }
    true
}

// Whether the number is in the list.
fn is_member(number: u32, numbers: &[u32]) -> bool
    ensures { result ≡ member number numbers.now }
{
    for i in 0..numbers.len() {
        if number == numbers[i] {
            return true;
        }
    }
    false
}

/// Whether no number of the list stands in it again.
pub fn no_number_twice(numbers: &[u32]) -> bool
    ensures { result ≡ no_number_twice numbers.now }
{
    for i in 0..numbers.len() {
        if is_member(numbers[i], &numbers[i + 1..]) {
            return false;
        }
    }
    true
}
