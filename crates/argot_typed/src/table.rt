// A table of types.
ghost use Rattle.std.specs.Prelude.{◌≡◌, ◌<◌, length, slice_get, Some, IfOk};
ghost use Rattle.argot_typed.specs.Fitting.{AreFit};
ghost use Rattle.argot_typed.specs.Leaves.{leaf_count_of};

use crate::counting::leaf_counts;
use crate::{Shape, TypeId};
use argot_text::Memory;
use std::alloc::Global;
use std::marker::Model;

/// A list of shapes whose numbers fit it. Beside each shape it keeps how many leaf paths the type has.
#[derive(Debug, Drop)]
pub struct TypeTable {
    shapes: Vec<Shape>,
    counts: Vec<u32>,
}

impl Model for TypeTable {
    ghost use Rattle.std.specs.Prelude.{List};
    ghost use Rattle.argot_typed.specs.declared.shape.Shape.{Shape};
    ghost use Rattle.argot_typed.specs.Counts.{AreCounted};

    ghost Value = { List Shape };

    ghost view = { λ a. a.shapes.items };

    ghost invariant = { λ a. AreCounted a.shapes.items a.counts.items };
}

impl TypeTable {
    /// The table of these shapes, whose leaf paths are counted here.
    pub fn from_vec(alloc: Global, shapes: Vec<Shape>) -> Result<TypeTable, Memory>
        requires { AreFit shapes.items }
        ensures { IfOk result (λ table. table ≡ shapes.items) }
    {
        let counts = leaf_counts(alloc, shapes.as_slice())?;
        Ok(TypeTable { shapes, counts })
    }

    /// The shapes, lent. No memory.
    pub fn as_vec(&self) -> &Vec<Shape>
        ensures shapes { result.now.items ≡ self.now }
        ensures fit { AreFit self.now }
    {
        &self.shapes
    }

    /// The shapes, given back. No memory.
    pub fn into_vec(self) -> Vec<Shape>
        ensures { result.items ≡ self }
    {
        let TypeTable { shapes, counts: _ } = self;
        shapes
    }

    /// How many types there are. No memory.
    pub fn len(&self) -> usize
        ensures { result ≡ length self.now }
    {
        self.shapes.len()
    }

    /// The shape of a type. No memory.
    pub fn shape(&self, t: TypeId) -> &Shape
        requires { t.0 < length self.now }
        ensures shape { slice_get self.now t.0 ≡ Some result.now }
        ensures fit { AreFit self.now }
    {
        &self.shapes[t.0 as usize]
    }

    /// How many leaf paths a type has, or 2^32 - 1 where there are more. No memory.
    pub(crate) fn leaf_count(&self, t: TypeId) -> u32
        requires { t.0 < length self.now }
        ensures { result ≡ leaf_count_of self.now t.0 }
    {
        self.counts[t.0 as usize]
    }
}
