//! The report of a program.

ghost use Rattle.std.specs.Prelude.{◌≡◌, ◌+◌, ◌-◌, ◌*◌, ◌<◌, ◌≤◌, ◌^◌, ◌++◌, IfOk, OnOk, length, map};
ghost use Rattle.std.specs.List.{All};
ghost use Rattle.argot_first.specs.Report.{IsTable, position, position_at, text_at, argument_text, line, lines, whole, places_of, all_places_of};

use crate::found::Flow;
use argot_first_form::{Function, Returned, Step};
use argot_text::{Memory, Out, Pos};
use std::alloc::Global;

// The positions of all bytes, in one walk.
fn all_positions(alloc: Global, bytes: &[u8]) -> Result<Vec<Pos>, Memory>
    requires { length bytes.now < 2 ^ 32 - 1 }
    ensures { IfOk result (λ table. IsTable bytes.now (length bytes.now) table.items) }
{
    let mut line = 1;
    let mut col = 1;
    let mut table = Vec::new(alloc);
    table.push(Pos { file: 0, line, col })?;
    for byte in bytes {
        if *byte == b'\n' {
            line += 1;
            col = 1;
        } else {
            col += 1;
        }
        table.push(Pos { file: 0, line, col })?;
    }
    Ok(table)
}

/// The positions of main's steps.
pub fn positions(alloc: Global, bytes: &[u8], steps: &[Step]) -> Result<Vec<Pos>, Memory>
    requires short { length bytes.now < 2 ^ 32 - 1 }
    requires inside { All (λ s. s.at ≤ length bytes.now) steps.now }
    ensures { IfOk result (λ ps. ps.items ≡ map (position bytes.now) steps.now) }
{
    let table = all_positions(alloc, bytes)?;
    let mut positions = Vec::new(alloc);
    for step in steps {
        positions.push(table[step.at])?;
    }
    Ok(positions)
}

fn position_at(positions: &[Pos], base: usize, place: usize) -> Pos
    ensures { result ≡ position_at positions.now base place }
{
    match positions.get(place.saturating_sub(base)) {
        Some(position) => *position,
        None => Pos {
            file: 0,
            line: 0,
            col: 0,
        },
    }
}

fn push_position(out: &mut Out, position: Pos) -> Result<(), Memory>
    ensures { OnOk result (out.new ≡ out.old ++ text_at position) }
{
    out.push_str("main.go:")?;
    out.push_number(u64::from(position.line))?;
    out.push_str(":")?;
    out.push_number(u64::from(position.col))
}

// A label, and the position of a place.
fn push_end(
    out: &mut Out,
    label: &str,
    positions: &[Pos],
    base: usize,
    place: usize,
) -> Result<(), Memory>
    ensures { OnOk result (out.new ≡ out.old ++ (label.now ++ text_at (position_at positions.now base place))) }
{
    out.push_str(label)?;
    push_position(out, position_at(positions, base, place))
}

fn push_argument(out: &mut Out, argument: usize) -> Result<(), Memory>
    ensures { OnOk result (out.new ≡ out.old ++ argument_text argument) }
{
    out.push_str(" main.sink arg ")?;
    out.push_number(argument as u64)?;
    out.push_str("\n")
}

#[tactic(auto, using(crate::proofs::Lines::joined))]
fn push_line(out: &mut Out, positions: &[Pos], base: usize, flow: &Flow) -> Result<(), Memory>
    ensures { OnOk result (out.new ≡ out.old ++ line positions.now base flow.now) }
{
    push_end(out, "flow default: ", positions, base, flow.source)?;
    push_end(out, " main.source -> ", positions, base, flow.sink)?;
    push_argument(out, flow.argument)?;
    Ok(())
}

/// The report: a line for each flow, and their number.
pub fn report(alloc: Global, positions: &[Pos], base: usize, flows: &[Flow]) -> Result<Out, Memory>
    ensures { IfOk result (λ out. out ≡ whole positions.now base flows.now) }
{
    let mut out = Out::new(alloc);
    for flow in flows {
        push_line(&mut out, positions, base, flow)?;
    }
    out.push_number(flows.len() as u64)?;
    out.push_str(" flows, 0 escapes\n")?;
    Ok(out)
}

fn places_of(returned: &Returned) -> usize
    ensures value { result ≡ places_of returned.now }
    ensures few { result ≤ 6 }
{
    match returned {
        Returned::Nothing => 3,
        Returned::Text => 6,
        Returned::Parameter(_) => 5,
    }
}

/// How many places the functions before main have.
pub fn all_places(functions: &[Function]) -> usize
    requires { length functions.now ≤ 4096 }
    ensures value { result ≡ all_places_of functions.now }
    ensures few { result ≤ 6 * length functions.now }
{
    let mut count = 0;
    for function in functions {
        count += places_of(&function.returned);
    }
    count
}
