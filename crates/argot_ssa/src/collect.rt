// The rows of one function: each place with each register that it reads and each definition that reaches it.
ghost use Rattle.std.specs.Prelude.{◌≡◌, ℕ, ◌<◌, ◌⊎◌, length, OnOk};
ghost use Rattle.argot_plain.specs.Lists.{In};
ghost use Rattle.argot_plain.specs.WellFormed.{WellFormed};
ghost use Rattle.argot_ssa.specs.Places.{size, IsOneOf, defines_at, IsExposed, IsCut, IsNet};
ghost use Rattle.argot_ssa.specs.Paths.{IsFound, AreOuts, AreAsks, AddsRows};
ghost use Rattle.argot_ssa.specs.Working.{IsWork};

use crate::asks::{count_registers, find_asks};
use crate::carry::carry;
use crate::cut::{count_places, cut};
use crate::net::{Net, make_net};
use crate::outs::find_outs;
use crate::work::Work;
use argot_links::Chains;
use argot_plain::{Function, Program};
use argot_text::Memory;
use std::alloc::Global;

/// The registers, one after the other.
fn carry_registers(
    program: &Program,
    function: &Function,
    heads: &[u32],
    net: &Net,
    work: &mut Work,
    outs: &Chains,
    asks: &Chains,
    rows: &mut Vec<(u32, u32, u32)>,
) -> Result<(), Memory>
    requires well { WellFormed program.now }
    requires function { IsOneOf program.now function.now }
    requires cut { IsCut program.now function.now heads.now }
    requires net { IsNet program.now function.now heads.now (size function.now) net.now.onward.lists net.now.back.lists }
    requires work { IsWork (length heads.now) work.old }
    requires count { length asks.now.lists ≡ length function.now.registers }
    requires count_outs { length outs.now.lists ≡ length function.now.registers }
    requires outs { AreOuts program.now function.now heads.now 0 outs.now.lists }
    requires asks { AreAsks program.now function.now heads.now (size function.now) asks.now.lists }
    ensures kept { OnOk result ((x : ℕ × ℕ × ℕ) → In x rows.old.items → In x rows.new.items) }
    ensures only { OnOk result ((x : ℕ × ℕ × ℕ) → In x rows.new.items → In x rows.old.items ⊎ IsFound program.now function.now x) }
    ensures there { OnOk result ((x : ℕ × ℕ × ℕ) → (f : IsFound program.now function.now x) → x.1 < length function.now.registers → IsExposed heads.now (defines_at program.now function.now x.1) f.k → In x rows.new.items) }
{
    for r in 0..count_registers(function)? {
        carry(program, function, heads, net, work, outs, asks, r, rows)?;
    }
    Ok(())
}

/// Adds the rows of the function.
pub fn collect(
    alloc: Global,
    program: &Program,
    function: &Function,
    rows: &mut Vec<(u32, u32, u32)>,
) -> Result<(), Memory>
    requires well { WellFormed program.now }
    requires function { IsOneOf program.now function.now }
    ensures { OnOk result (AddsRows rows.old.items rows.new.items (IsFound program.now function.now)) }
{
    let heads = cut(alloc, program, function)?;
    let heads = heads.as_slice();
    let asks = find_asks(alloc, program, function, heads, rows)?;
    let outs = find_outs(alloc, program, function, heads)?;
    let net = make_net(alloc, program, function, heads)?;
    let mut work = Work::new(alloc, count_places(program, function))?;
    carry_registers(
        program, function, heads, &net, &mut work, &outs, &asks, rows,
    )?;
    Ok(())
}
