// How many leaf paths each type of a table has, from the types that it holds by value.
ghost use Rattle.std.specs.Prelude.{◌≡◌, ℕ, ◌<◌, length, slice_index, Some, IsTrue, IfOk, false};
ghost use Rattle.std.specs.List.{AllByRecursion};
ghost use Rattle.argot_typed.specs.Parts.{held_by, types_of_fields};
ghost use Rattle.argot_typed.specs.Fitting.{AreFit};
ghost use Rattle.argot_typed.specs.Counts.{count_of_fields as fields_count, count_of_shape as shape_count, known_at, AreRight, IsClosed, AreCounted, unknown_count};

use crate::{FieldShape, Shape};
use argot_text::Memory;
use std::alloc::Global;

/// The count of fields, if that of each one's type is known.
fn count_of_fields(counts: &[Option<u32>], fields: &[FieldShape]) -> Option<u32>
    requires { AllByRecursion (λ p. p < length counts.now) (types_of_fields fields.now) }
    ensures { result ≡ fields_count (known_at counts.now) fields.now }
{
    let mut total = 0u32;
    let mut i = fields.len();
    while i > 0 {
        i -= 1;
        let of = fields[i].of;
        match counts[of.0 as usize] {
            None => return None,
            Some(count) => total = total.saturating_add(count),
        }
    }
    Some(total)
}

/// The count of a shape, if those that it needs are known.
fn count_of_shape(counts: &[Option<u32>], shape: &Shape) -> Option<u32>
    requires { AllByRecursion (λ p. p < length counts.now) (held_by shape.now) }
    ensures { result ≡ shape_count (known_at counts.now) shape.now }
{
    match shape {
        Shape::Named { under, .. } => counts[under.0 as usize],
        Shape::Array { of, .. } => counts[of.0 as usize],
        Shape::Struct { fields } => count_of_fields(counts, fields.as_slice()),
        _ => Some(1),
    }
}

/// Counts the type t, if it isn't counted and what it needs is. Whether it was counted now.
fn count_type(shapes: &[Shape], counts: &mut Vec<Option<u32>>, t: usize) -> bool
    requires fit { AreFit shapes.now }
    requires as_many { length counts.old.items ≡ length shapes.now }
    requires type_id { t < length shapes.now }
    requires right { AreRight shapes.now counts.old.items }
    ensures as_many { length counts.new.items ≡ length counts.old.items }
    ensures right { AreRight shapes.now counts.new.items }
    ensures same { result ≡ false → counts.new.items ≡ counts.old.items }
    ensures closed { result ≡ false → IsClosed shapes.now counts.new.items t }
    ensures fewer { IsTrue result → unknown_count counts.new.items < unknown_count counts.old.items }
{
    if counts[t].is_some() {
        return false;
    }
    match count_of_shape(counts.as_slice(), &shapes[t]) {
        None => false,
        Some(count) => {
            counts[t] = Some(count);
            true
        }
    }
}

/// Counts each type that isn't counted and whose parts are. Whether there was one.
fn pass(shapes: &[Shape], counts: &mut Vec<Option<u32>>) -> bool
    requires fit { AreFit shapes.now }
    requires as_many { length counts.old.items ≡ length shapes.now }
    requires right { AreRight shapes.now counts.old.items }
    ensures as_many { length counts.new.items ≡ length counts.old.items }
    ensures right { AreRight shapes.now counts.new.items }
    ensures closed { result ≡ false → (t : ℕ) → t < length shapes.now → IsClosed shapes.now counts.new.items t }
    ensures fewer { IsTrue result → unknown_count counts.new.items < unknown_count counts.old.items }
{
    let mut changed = false;
    for t in 0..shapes.len() {
        if count_type(shapes, counts, t) {
            changed = true;
        }
    }
    changed
}

/// The counts as numbers.
fn settled(alloc: Global, counts: &[Option<u32>]) -> Result<Vec<u32>, Memory>
    requires { (t : ℕ) → t < length counts.now → (c : ℕ) × (known_at counts.now t ≡ Some c) }
    ensures as_many { IfOk result (λ v. length v.items ≡ length counts.now) }
    ensures same { IfOk result (λ v. (t : ℕ) → t < length counts.now → known_at counts.now t ≡ Some (slice_index v.items t)) }
{
    let mut numbers = Vec::new(alloc);
    for count in counts {
        numbers.push(count.unwrap())?;
    }
    Ok(numbers)
}

/// The count of each type.
pub fn leaf_counts(alloc: Global, shapes: &[Shape]) -> Result<Vec<u32>, Memory>
    requires { AreFit shapes.now }
    ensures { IfOk result (λ v. AreCounted shapes.now v.items) }
{
    let mut counts: Vec<Option<u32>> = vec![in alloc; None; shapes.len()]?;
    while pass(shapes, &mut counts) {}
    settled(alloc, counts.as_slice())
}
