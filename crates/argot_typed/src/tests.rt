// The worked row of `leaves`, and types that nest beyond all counting.
ghost use Rattle.std.specs.Prelude.{◌≡◌, ℕ, ◌+◌, ◌^◌, ◌<◌, length, IfOk};
ghost use Rattle.std.specs.List.{AllByRecursion};
ghost use Rattle.argot_typed.specs.Parts.{parts_of, field_count};
ghost use Rattle.argot_typed.specs.Fitting.{IsOrdered};

use crate::{FieldShape, Shape, TypeId, TypeTable, leaf_count, leaves};
use argot_text::{Memory, PathStep, Sequence, Text};
use std::alloc::Global;
use std::test::Fail;

// A field of that type.
fn field(alloc: Global, of: TypeId) -> Result<FieldShape, Memory>
    ensures { IfOk result (λ f. f.of ≡ of) }
{
    Ok(FieldShape {
        name: Text::from_str(alloc, "f")?,
        package: Some(0),
        tag: Text::from_str(alloc, "")?,
        embedded: false,
        of,
    })
}

// Puts a type behind its parts.
fn put(shapes: &mut Vec<Shape>, shape: Shape) -> Result<(), Memory>
    requires ordered { IsOrdered shapes.old.items }
    requires parts { AllByRecursion (λ p. p < length shapes.old.items) (parts_of shape) }
    requires narrow { field_count shape < 2 ^ 32 }
    ensures ordered { IfOk result (λ _. IsOrdered shapes.new.items) }
    ensures longer { IfOk result (λ _. length shapes.new.items ≡ length shapes.old.items + 1) }
{
    shapes.push(shape)?;
    Ok(())
}

// Puts a struct with two fields behind their types.
fn put_pair(
    alloc: Global,
    shapes: &mut Vec<Shape>,
    first: TypeId,
    second: TypeId,
) -> Result<(), Memory>
    requires ordered { IsOrdered shapes.old.items }
    requires first { first.0 < length shapes.old.items }
    requires second { second.0 < length shapes.old.items }
    ensures ordered { IfOk result (λ _. IsOrdered shapes.new.items) }
    ensures longer { IfOk result (λ _. length shapes.new.items ≡ length shapes.old.items + 1) }
{
    let mut fields = Vec::new(alloc);
    fields.push(field(alloc, first)?)?;
    fields.push(field(alloc, second)?)?;
    let fields = Sequence::from_vec(fields);
    put(shapes, Shape::Struct { fields })
}

// The table of `struct{ a int; b [2]*int }`, its number 3.
fn worked_row(alloc: Global) -> Result<TypeTable, Memory>
    ensures { IfOk result (λ table. length table ≡ 4) }
{
    let mut shapes = Vec::new(alloc);
    put(
        &mut shapes,
        Shape::Whole {
            bits: 64,
            signed: true,
        },
    )?;
    put(&mut shapes, Shape::Pointer { to: TypeId(0) })?;
    put(
        &mut shapes,
        Shape::Array {
            len: 2,
            of: TypeId(1),
        },
    )?;
    put_pair(alloc, &mut shapes, TypeId(0), TypeId(2))?;
    TypeTable::from_vec(alloc, shapes)
}

// A truth value, and 40 times an array of the last struct and a struct of both.
fn nested(alloc: Global) -> Result<TypeTable, Memory>
    ensures { IfOk result (λ table. length table ≡ 81) }
{
    let mut shapes = Vec::new(alloc);
    put(&mut shapes, Shape::Truth)?;
    for depth in 0..40u32 {
        let last = TypeId(2 * depth);
        put(&mut shapes, Shape::Array { len: 3, of: last })?;
        put_pair(alloc, &mut shapes, last, TypeId(2 * depth + 1))?;
    }
    TypeTable::from_vec(alloc, shapes)
}

#[test]
fn leaves_of_a_struct_with_an_array(rt: HostRuntime) -> Result<(), Fail> {
    let table = worked_row(rt.alloc())?;
    assert!(rt; leaf_count(&table, TypeId(3)) <= 4096);
    let paths = leaves(rt.alloc(), &table, TypeId(3))?;
    assert_eq!(rt; paths.len(), 2);
    assert_eq!(rt;
        paths.as_slice()[0].as_slice(),
        [PathStep::Field(0)].as_slice()
    );
    assert_eq!(rt;
        paths.as_slice()[1].as_slice(),
        [PathStep::Field(1), PathStep::Element].as_slice()
    );
    Ok(())
}

#[test]
fn types_nested_forty_deep_are_counted_at_once(rt: HostRuntime) -> Result<(), Fail> {
    let table = nested(rt.alloc())?;
    assert_eq!(rt; leaf_count(&table, TypeId(62)), 1 << 31);
    assert_eq!(rt; leaf_count(&table, TypeId(64)), u32::MAX);
    assert_eq!(rt; leaf_count(&table, TypeId(80)), u32::MAX);
    Ok(())
}
