// The targets of calls, by what the tables have.
ghost use Rattle.std.specs.Prelude.{◌≡◌, ◌⊎◌, ℕ, ◌+◌, ◌<◌, ◌++◌, Bool, List, true, map, length, IfOk, OnOk};
ghost use Rattle.argot_links.specs.Members.{IsAscending};
ghost use Rattle.argot_links.specs.Table.{has, row, SameShape};
ghost use Rattle.argot_plain.specs.declared.instructions.Callee.{Callee as Callees};
ghost use Rattle.argot_points.specs.Meaning.{IsRow, Means, Aimed, IsCall, HasCallee};
ghost use Rattle.argot_points.specs.Reading.{AreListed, IsLivePlace, start_of};
ghost use Rattle.argot_points.specs.Solved.{Fits, HasSize, Refers};

use crate::calls::Calling;
use crate::system::{System, Tables};
use argot_facts::Node;
use argot_links::Rows;
use argot_plain::Callee;
use argot_points_rules::reference;
use argot_text::Memory;
use std::alloc::Global;

/// Marks the function that the callee means at the location y.
fn mark_at(system: &System, marks: &mut Rows, callee: &Callee, y: u32)
    requires fits { Fits system.now }
    requires rows { length marks.old.rows ≡ 1 }
    requires cols { marks.old.cols ≡ length system.now.program.now.functions }
    ensures shape { SameShape marks.old marks.new }
    ensures kept { (g : ℕ) → has marks.old 0 g ≡ true → has marks.new 0 g ≡ true }
    ensures there { (g : ℕ) (takes : Bool) → Means system.now callee.now y g takes → has marks.new 0 g ≡ true }
    ensures only { (g : ℕ) → has marks.new 0 g ≡ true → (has marks.old 0 g ≡ true) ⊎ ((takes : Bool) × Means system.now callee.now y g takes) }
{
    if y as usize >= system.locations.len() {
        return;
    }
    match system.means(callee, y) {
        Some(target) => {
            marks.add(0, target.0);
        }
        None => {}
    }
}

/// Marks each function that the callee means at what a row refers to.
fn mark_row(system: &System, refers: &Rows, marks: &mut Rows, callee: &Callee, r: u32)
    requires fits { Fits system.now }
    requires row { r < length refers.now.rows }
    requires rows { length marks.old.rows ≡ 1 }
    requires cols { marks.old.cols ≡ length system.now.program.now.functions }
    ensures shape { SameShape marks.old marks.new }
    ensures kept { (g : ℕ) → has marks.old 0 g ≡ true → has marks.new 0 g ≡ true }
    ensures there { (y g : ℕ) (takes : Bool) → has refers.now r y ≡ true → Means system.now callee.now y g takes → has marks.new 0 g ≡ true }
    ensures only { (g : ℕ) → has marks.new 0 g ≡ true → (has marks.old 0 g ≡ true) ⊎ ((y : ℕ) × (takes : Bool) × (has refers.now r y ≡ true) × Means system.now callee.now y g takes) }
{
    for y in refers.walk(r) {
        mark_at(system, marks, callee, y);
    }
}

/// Marks each function that the callee means at what the node refers to.
fn mark_by(system: &System, tables: &Tables, marks: &mut Rows, callee: &Callee, by: Node)
    requires fits { Fits system.now }
    requires size { HasSize system.now tables.now }
    requires rows { length marks.old.rows ≡ 1 }
    requires cols { marks.old.cols ≡ length system.now.program.now.functions }
    ensures shape { SameShape marks.old marks.new }
    ensures there { (r y g : ℕ) (takes : Bool) → IsRow system.now r by → has tables.now.refers r y ≡ true → Means system.now callee.now y g takes → has marks.new 0 g ≡ true }
    ensures only { (g : ℕ) → has marks.new 0 g ≡ true → (has marks.old 0 g ≡ true) ⊎ ((r : ℕ) × (y : ℕ) × (takes : Bool) × IsRow system.now r by × (has tables.now.refers r y ≡ true) × Means system.now callee.now y g takes) }
{
    match system.row(by) {
        Some(r) => mark_row(system, &tables.refers, marks, callee, r),
        None => {}
    }
}

/// Marks the targets of the place, whose callee this is, and no other.
fn mark_targets(
    system: &System,
    tables: &Tables,
    marks: &mut Rows,
    callee: &Callee,
    place: u32,
    by: Node,
)
    requires fits { Fits system.now }
    requires size { HasSize system.now tables.now }
    requires there { HasCallee system.now.program.now place callee.now }
    requires alone { (other : Callees) (args : List ℕ) (n : ℕ) → IsCall system.now.program.now place other args n → other ≡ callee.now }
    requires rows { length marks.old.rows ≡ 1 }
    requires cols { marks.old.cols ≡ length system.now.program.now.functions }
    ensures shape { SameShape marks.old marks.new }
    ensures there { (g : ℕ) (takes : Bool) → Aimed system.now (Refers tables.now) place by g takes → has marks.new 0 g ≡ true }
    ensures only { (g : ℕ) → has marks.new 0 g ≡ true → (takes : Bool) × Aimed system.now (Refers tables.now) place by g takes }
{
    marks.clear();
    match callee {
        Callee::Static(g) => {
            marks.add(0, *g);
        }
        _ => mark_by(system, tables, marks, callee, by),
    }
}

/// Adds the place with each number in the first row.
fn push_marks(found: &mut Vec<(u32, u32)>, marks: &Rows, place: u32) -> Result<(), Memory>
    requires { 0 < length marks.now.rows }
    ensures pairs { OnOk result (found.new.items ≡ found.old.items ++ map (λ g. (place, g)) (row marks.now 0)) }
    ensures ascending { IsAscending (row marks.now 0) }
{
    for g in marks.walk(0) {
        found.push((place, g))?;
    }
    Ok(())
}

/// Adds the targets of the call.
fn list_call(
    system: &System,
    tables: &Tables,
    marks: &mut Rows,
    found: &mut Vec<(u32, u32)>,
    place: u32,
    calling: &Calling,
) -> Result<(), Memory>
    requires fits { Fits system.now }
    requires size { HasSize system.now tables.now }
    requires call { IsCall system.now.program.now place calling.now.callee.now calling.now.args.now calling.now.behind }
    requires only { (callee : Callees) (args : List ℕ) (n : ℕ) → IsCall system.now.program.now place callee args n → (callee ≡ calling.now.callee.now) × (args ≡ calling.now.args.now) × (n ≡ calling.now.behind) }
    requires live { IsLivePlace system.now tables.now place }
    requires rows { length marks.old.rows ≡ 1 }
    requires cols { marks.old.cols ≡ length system.now.program.now.functions }
    requires listed { AreListed system.now tables.now place found.old.items }
    ensures shape { SameShape marks.old marks.new }
    ensures listed { OnOk result (AreListed system.now tables.now (place + 1) found.new.items) }
{
    if calling.behind > u32::MAX as usize {
        return Err(Memory);
    }
    let by = reference(place, calling.callee, calling.args, calling.behind as u32)?;
    mark_targets(system, tables, marks, calling.callee, place, by);
    push_marks(found, marks, place)?;
    Ok(())
}

/// Adds the targets of the place.
fn list_place(
    system: &System,
    tables: &Tables,
    marks: &mut Rows,
    found: &mut Vec<(u32, u32)>,
    place: u32,
) -> Result<(), Memory>
    requires fits { Fits system.now }
    requires size { HasSize system.now tables.now }
    requires live { IsLivePlace system.now tables.now place }
    requires rows { length marks.old.rows ≡ 1 }
    requires cols { marks.old.cols ≡ length system.now.program.now.functions }
    requires listed { AreListed system.now tables.now place found.old.items }
    ensures shape { SameShape marks.old marks.new }
    ensures listed { OnOk result (AreListed system.now tables.now (place + 1) found.new.items) }
{
    match system.calling(place) {
        Some(calling) => list_call(system, tables, marks, found, place, &calling),
        None => Ok(()),
    }
}

/// Adds the targets of the places of a live function.
fn list_places(
    system: &System,
    tables: &Tables,
    marks: &mut Rows,
    found: &mut Vec<(u32, u32)>,
    h: u32,
) -> Result<(), Memory>
    requires fits { Fits system.now }
    requires size { HasSize system.now tables.now }
    requires inside { h < length system.now.program.now.functions }
    requires live { has tables.now.live 0 h ≡ true }
    requires rows { length marks.old.rows ≡ 1 }
    requires cols { marks.old.cols ≡ length system.now.program.now.functions }
    requires listed { AreListed system.now tables.now (start_of system.now.program.now h) found.old.items }
    ensures shape { SameShape marks.old marks.new }
    ensures listed { OnOk result (AreListed system.now tables.now (start_of system.now.program.now (h + 1)) found.new.items) }
{
    let function = system.program.function(h as usize);
    for place in function.entry..function.leave + 1 {
        list_place(system, tables, marks, found, place)?;
    }
    Ok(())
}

/// Adds the targets of the places of a function, if it is live.
fn list_function(
    system: &System,
    tables: &Tables,
    marks: &mut Rows,
    found: &mut Vec<(u32, u32)>,
    h: u32,
) -> Result<(), Memory>
    requires fits { Fits system.now }
    requires size { HasSize system.now tables.now }
    requires inside { h < length system.now.program.now.functions }
    requires rows { length marks.old.rows ≡ 1 }
    requires cols { marks.old.cols ≡ length system.now.program.now.functions }
    requires listed { AreListed system.now tables.now (start_of system.now.program.now h) found.old.items }
    ensures shape { SameShape marks.old marks.new }
    ensures listed { OnOk result (AreListed system.now tables.now (start_of system.now.program.now (h + 1)) found.new.items) }
{
    if !tables.live.has(0, h) {
        return Ok(());
    }
    list_places(system, tables, marks, found, h)
}

/// The calls of live functions with their targets, in order.
pub(crate) fn targets_of(
    alloc: Global,
    system: &System,
    tables: &Tables,
) -> Result<Vec<(u32, u32)>, Memory>
    requires fits { Fits system.now }
    requires size { HasSize system.now tables.now }
    ensures { IfOk result (λ v. AreListed system.now tables.now (length system.now.program.now.instrs) v.items) }
{
    let functions = system.program.function_count();
    let mut marks = Rows::new(alloc, 1, functions as u32)?;
    let mut found = Vec::new(alloc);
    for h in 0..functions {
        list_function(system, tables, &mut marks, &mut found, h as u32)?;
    }
    Ok(found)
}
