//! What shows the rows of tables.

ghost use Rattle.std.specs.Prelude.{◌≡◌, ℕ, IfOk, List, OnOk, [], false};
ghost use Rattle.salt_model.specs.Tables.{Tables, place, row_at};
ghost use Rattle.salt_eval.specs.Views.{CountsFaults, coming_where, range_rows, shown_where};
ghost use Rattle.salt_eval.specs.declared.view.ViewErr.TheVariants.{Memory};
ghost use Rattle.salt_values.specs.declared.value.Value.{Value};

use salt_exprs::Cells;
use salt_ranges::KeyRange;
use salt_values::Key;
use std::alloc::AllocError;

/// Why a row is not shown.
#[derive(Clone, Copy, Debug, PartialEq, Eq)]
pub enum ViewErr {
    /// What keeps the rows failed; the count of faults has risen.
    Fault,
    /// Memory ran out.
    Memory,
}

impl From<AllocError> for ViewErr {
    ghost from_gives = { λ _ e. e ≡ Memory };

    fn from(_: AllocError) -> Self {
        ViewErr::Memory
    }
}

/// The rows of all tables: one is found by its key, and those of a range come one after another. A view stands at the row that it came to
/// last, and is asked for its values.
pub trait RowView: Cells {
    /// The tables that it shows, which no call changes.
    ghost tables: { Self → Tables };

    /// What each view says of where its rows come from.
    ghost Source: { Type 0 };

    /// Where its rows come from, which no call changes: over another view the reference to it, and what that one shows.
    ghost shown_from: { Self → Self.Source };

    /// The count of faults, which a call that answers `Fault` raises unless it stands at 2^64 - 1, and no other call changes.
    ghost faults: { Self → ℕ };

    /// The rows that are still to come of the range in which it was started last, in order of their keys.
    ghost coming: { Self → List (List Value) };

    /// Whether there is a row of the key in the table of this number: then it stands at it.
    fn find(&mut self, table: u16, key: &Key) -> Result<bool, ViewErr>
        ensures row { IfOk result (λ found. row_at (place table key.now) (tables self.old) ≡ shown_where found (Self.cells self.new)) }
        ensures kept { tables self.new ≡ tables self.old }
        ensures source { shown_from self.new ≡ shown_from self.old }
        ensures faults { CountsFaults (faults self.old) (faults self.new) result };

    /// The rows in the range are to come, in order of their keys.
    fn start(&mut self, table: u16, range: &KeyRange) -> Result<(), ViewErr>
        ensures rows { OnOk result (coming self.new ≡ range_rows table range.now (tables self.old)) }
        ensures kept { tables self.new ≡ tables self.old }
        ensures source { shown_from self.new ≡ shown_from self.old }
        ensures faults { CountsFaults (faults self.old) (faults self.new) result };

    /// Whether a row is still to come: then it stands at the first of them, and the others are to come; else none is to come behind it either.
    fn step(&mut self) -> Result<bool, ViewErr>
        ensures row { IfOk result (λ more. coming self.old ≡ coming_where more (Self.cells self.new) (coming self.new)) }
        ensures ended { IfOk result (λ more. more ≡ false → coming self.new ≡ []) }
        ensures kept { tables self.new ≡ tables self.old }
        ensures source { shown_from self.new ≡ shown_from self.old }
        ensures faults { CountsFaults (faults self.old) (faults self.new) result };
}
