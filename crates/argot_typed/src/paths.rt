// The leaf paths of a type, one at a time: leaf number n of a struct is one of the field that the counts point to.
ghost use Rattle.std.specs.Prelude.{◌≡◌, ℕ, ◌<◌, ◌≤◌, ◌++◌, ◌∷◌, [], length, ◌^◌, slice_get, Some, IfOk, OnOk, option_to_list};
ghost use Rattle.std.specs.List.{AllByRecursion};
ghost use Rattle.argot_typed.specs.Parts.{types_of_fields};
ghost use Rattle.argot_typed.specs.Leaves.{leaves_of, leaves_of_fields, leaf_count_of};
ghost use Rattle.argot_typed.specs.Steps.{IsFound, IsStep};

use crate::{FieldShape, Shape, TypeId, TypeTable};
use argot_text::{Memory, Path, PathStep, Paths, Sequence};
use std::alloc::Global;

/// How many leaf paths a type has, or 2^32 - 1 where there are more. No memory.
pub fn leaf_count(table: &TypeTable, t: TypeId) -> u32
    requires { t.0 < length table.now }
    ensures { result ≡ leaf_count_of table.now t.0 }
{
    table.leaf_count(t)
}

/// The leaf paths of a type, in order of fields.
pub fn leaves(alloc: Global, table: &TypeTable, t: TypeId) -> Result<Paths, Memory>
    requires type_id { t.0 < length table.now }
    requires few { leaf_count_of table.now t.0 ≤ 4096 }
    ensures { IfOk result (λ paths. paths ≡ leaves_of table.now t.0) }
{
    let mut paths = Vec::new(alloc);
    for n in 0..leaf_count(table, t) {
        paths.push(leaf(alloc, table, t, n)?)?;
    }
    Ok(Sequence::from_vec(paths))
}

/// A field of a struct, and which leaf of it.
#[derive(Clone, Copy)]
pub struct Found {
    field: u32,
    of: TypeId,
    left: u32,
}

/// The field that leaf number n of these fields goes through.
fn find_field(table: &TypeTable, fields: &[FieldShape], n: u32) -> Found
    requires in_range { AllByRecursion (λ p. p < length table.now) (types_of_fields fields.now) }
    requires narrow { length fields.now < 2 ^ 32 }
    requires few { length (leaves_of_fields (leaves_of table.now) 0 fields.now) ≤ 4096 }
    requires there { n < length (leaves_of_fields (leaves_of table.now) 0 fields.now) }
    ensures { IsFound table.now fields.now n result }
{
    let mut left = n;
    for k in 0..fields.len() {
        let of = fields[k].of;
        let count = leaf_count(table, of);
        if left < count {
            let field = k as u32;
            return Found { field, of, left };
        }
        left -= count;
    }
    unreachable!()
}

/// The next step of a path: a step or none, the type that it leads to, and which leaf of that.
#[derive(Clone, Copy)]
pub struct Step {
    step: Option<PathStep>,
    of: TypeId,
    left: u32,
}

/// The step that leaf number n of a type takes; none where the type is a leaf itself.
fn next_step(table: &TypeTable, t: TypeId, n: u32) -> Option<Step>
    requires type_id { t.0 < length table.now }
    requires few { length (leaves_of table.now t.0) ≤ 4096 }
    requires there { n < length (leaves_of table.now t.0) }
    ensures { IsStep table.now t.0 n result }
{
    match table.shape(t) {
        Shape::Named { under, .. } => Some(Step {
            step: None,
            of: *under,
            left: n,
        }),
        Shape::Array { of, .. } => Some(Step {
            step: Some(PathStep::Element),
            of: *of,
            left: n,
        }),
        Shape::Struct { fields } => {
            let Found { field, of, left } = find_field(table, fields.as_slice(), n);
            Some(Step {
                step: Some(PathStep::Field(field)),
                of,
                left,
            })
        }
        _ => None,
    }
}

/// Puts the step last, if there is one.
fn push_step(steps: &mut Vec<PathStep>, step: Option<PathStep>) -> Result<(), Memory>
    ensures { OnOk result (steps.new.items ≡ steps.old.items ++ option_to_list step) }
{
    if let Some(step) = step {
        steps.push(step)?;
    }
    Ok(())
}

/// Leaf path number n of a type.
fn leaf(alloc: Global, table: &TypeTable, t: TypeId, n: u32) -> Result<Path, Memory>
    requires type_id { t.0 < length table.now }
    requires few { length (leaves_of table.now t.0) ≤ 4096 }
    requires there { n < length (leaves_of table.now t.0) }
    ensures { IfOk result (λ path. slice_get (leaves_of table.now t.0) n ≡ Some path) }
{
    let mut steps = Vec::new(alloc);
    let mut at = t;
    let mut left = n;
    let shapes = table.as_vec();
    for walked in 0..shapes.len() {
        let Some(next) = next_step(table, at, left) else {
            return Ok(Sequence::from_vec(steps));
        };
        push_step(&mut steps, next.step)?;
        at = next.of;
        left = next.left;
    }
    unreachable!()
}
