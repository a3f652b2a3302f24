//! Rows that are asked for their values.

ghost use Rattle.std.specs.Prelude.{◌≡◌, IfOk, List, Ok, slice_get};
ghost use Rattle.salt_exprs.specs.Operands.{datum_of};
ghost use Rattle.salt_model.specs.Eval.{known};
ghost use Rattle.salt_values.specs.declared.value.Value.{Value};

use crate::operand::{Operand, in_column};
use salt_values::{Row, TryCopy};
use std::alloc::{AllocError, Global};

/// A row, asked for its values one by one: it may stand in bytes, of which only what is asked for is made.
pub trait Cells {
    /// Its values.
    ghost cells: { Self → List Value };

    /// The value of the column of this number; what is mistyped where the row ends before it.
    fn operand<'r>(&'r self, alloc: Global, number: usize) -> Result<Operand<'r>, AllocError>
        ensures { IfOk result (λ operand. Ok (datum_of operand) ≡ known (slice_get (cells self.now) number)) };

    /// All its values.
    fn row(&self, alloc: Global) -> Result<Row, AllocError>
        ensures { IfOk result (λ row. row ≡ cells self.now) };
}

impl Cells for Row {
    ghost cells = { λ row. row };

    fn operand<'r>(&'r self, _alloc: Global, number: usize) -> Result<Operand<'r>, AllocError> {
        Ok(in_column(self.as_slice(), number))
    }

    fn row(&self, alloc: Global) -> Result<Row, AllocError> {
        self.copy(alloc)
    }
}
