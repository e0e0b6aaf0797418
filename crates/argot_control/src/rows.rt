// For each block a row: the blocks to which it leads.
ghost use Rattle.std.specs.Prelude.{◌≡◌, ◌↔◌, ◌<◌, ◌≤◌, ℕ, IsTrue, IfOk, true, false};
ghost use Rattle.argot_links.specs.Table.{has, room};
ghost use Rattle.argot_plain.specs.Lists.{In};
ghost use Rattle.argot_control.specs.Steps.{IsLed, AreBelow, IsSquare, IsTaken, AreLed};

use argot_links::Rows;
use argot_text::Memory;
use std::alloc::Global;

/// Takes what a step leads to into the row of its start. Whether that changed the row.
fn take(rows: &mut Rows, blocks: u32, steps: &[(u32, u32)], step: (u32, u32)) -> bool
    requires step { In step steps.now }
    requires below { AreBelow blocks steps.now }
    requires square { IsSquare blocks rows.old }
    requires led { AreLed steps.now rows.old }
    ensures square { IsSquare blocks rows.new }
    ensures led { AreLed steps.now rows.new }
    ensures less { IsTrue result → room rows.new < room rows.old }
    ensures same { result ≡ false → rows.new ≡ rows.old }
    ensures taken { result ≡ false → IsTaken rows.new step.0 step.1 }
{
    let fresh = rows.add(step.0, step.1);
    let grown = rows.join(step.1, step.0);
    fresh || grown
}

/// The same for each step. Whether that changed a row.
fn take_all(rows: &mut Rows, blocks: u32, steps: &[(u32, u32)]) -> bool
    requires below { AreBelow blocks steps.now }
    requires square { IsSquare blocks rows.old }
    requires led { AreLed steps.now rows.old }
    ensures square { IsSquare blocks rows.new }
    ensures led { AreLed steps.now rows.new }
    ensures less { IsTrue result → room rows.new < room rows.old }
    ensures taken { result ≡ false → (x y : ℕ) → In (x, y) steps.now → IsTaken rows.new x y }
{
    let mut changed = false;
    for k in 0..steps.len() {
        if take(rows, blocks, steps, steps[k]) {
            changed = true;
        }
    }
    changed
}

/// Takes until no row changes.
fn settle(rows: &mut Rows, blocks: u32, steps: &[(u32, u32)])
    requires below { AreBelow blocks steps.now }
    requires square { IsSquare blocks rows.old }
    requires led { AreLed steps.now rows.old }
    ensures square { IsSquare blocks rows.new }
    ensures led { AreLed steps.now rows.new }
    ensures taken { (x y : ℕ) → In (x, y) steps.now → IsTaken rows.new x y }
{
    'passes: loop {
        if !take_all(rows, blocks, steps) {
            return;
        }
    }
}

/// For each block exactly the blocks to which one or more of the steps lead from it.
pub fn rows_of(alloc: Global, blocks: u32, steps: &[(u32, u32)]) -> Result<Rows, Memory>
    requires { AreBelow blocks steps.now }
    ensures square { IfOk result (IsSquare blocks) }
    ensures exact { IfOk result (λ t. (x y : ℕ) → (has t x y ≡ true) ↔ IsLed steps.now x y) }
{
    let mut rows = Rows::new(alloc, blocks, blocks)?;
    settle(&mut rows, blocks, steps);
    Ok(rows)
}
