// The function that has a place.
ghost use Rattle.std.specs.Prelude.{◌<◌, length};
ghost use Rattle.argot_plain.specs.Code.{IsIn};
ghost use Rattle.argot_plain.specs.WellFormed.{WellFormed};

use argot_plain::Program;

/// The number of the function that has the place. A search by halves, since functions stand in the order of their places.
pub(crate) fn function_of(program: &Program, place: u32) -> usize
    requires { place < length program.now.instrs }
    ensures is_in { IsIn program.now place result }
    ensures well { WellFormed program.now }
{
    let mut low = 0;
    let mut high = program.function_count();
    while low + 1 < high {
        let middle = low + (high - low) / 2;
        if program.function(middle).entry <= place {
            low = middle;
        } else {
            high = middle;
        }
    }
    low
}
