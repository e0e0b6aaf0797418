// Numbers of blocks, by place.
ghost use Rattle.std.specs.Prelude.{◌≡◌, ◌+◌, ◌<◌, ◌≤◌, ℕ, IfOk, true, length};
ghost use Rattle.argot_plain.specs.Lists.{In};
ghost use Rattle.argot_facts.specs.Handed.{FactsOf};
ghost use Rattle.argot_facts.specs.Pointing.{FitsPoints};
ghost use Rattle.argot_control.specs.Blocks.{AreBlocks};
ghost use Rattle.argot_control.specs.Numbering.{AreNumbered, block_in};

use crate::entered::entered;
use crate::inner::inner;
use argot_facts::Points;
use argot_plain::Program;
use argot_text::Memory;
use std::alloc::Global;

/// The number behind one with this flag.
fn behind(flag: bool, number: u32) -> u32
    requires { number < 4294967295 }
    ensures least { number ≤ result }
    ensures most { result ≤ number + 1 }
    ensures same { result ≡ number → flag ≡ true }
{
    if flag { number } else { number + 1 }
}

/// Numbers from 0 on, one more behind each flag that isn't set.
fn numbered(alloc: Global, flags: &[bool]) -> Result<Vec<u32>, Memory>
    requires { length flags.now < 4294967295 }
    ensures { IfOk result (λ v. AreNumbered flags.now v.items) }
{
    let mut numbers = Vec::with_capacity(alloc, flags.len())?;
    let mut number = 0;
    for k in 0..flags.len() {
        numbers.push(number)?;
        number = behind(flags[k], number);
    }
    Ok(numbers)
}

/// The number of the block of each place. Neighbours are in one block where control goes from the one to the other alone.
pub fn blocks_of(alloc: Global, program: &Program, points: &Points) -> Result<Vec<u32>, Memory>
    requires { FitsPoints program.now points.now }
    ensures count { IfOk result (λ v. length v.items ≡ length program.now.instrs) }
    ensures low { IfOk result (λ v. (b : ℕ) → In b v.items → b < length program.now.instrs) }
    ensures blocks { IfOk result (λ v. AreBlocks program.now (FactsOf program.now points.now) (block_in v.items)) }
{
    let flags = entered(alloc, program)?;
    let inner = inner(alloc, program, points, &flags)?;
    let numbers = numbered(alloc, &inner)?;
    Ok(numbers)
}
