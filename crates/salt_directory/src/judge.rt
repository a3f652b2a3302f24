//! Whether rows that are read from pages may stand there.

ghost use Rattle.salt_bytes.specs.Page.{TableRow};
ghost use Rattle.salt_values.specs.Value.{key_of};
ghost use Rattle.std.specs.Prelude.{Bool, IfOk, true, ⊤, ◌≡◌};

use salt_values::{Key, Row};
use std::alloc::{AllocError, Global};

/// A judge of rows: what a page spells may fit nothing that its reader knows of the tables.
pub trait RowJudge {
    /// When it may be asked.
    ghost can_judge: { Self → Type 0 };

    /// Which rows of tables are sound.
    ghost sound: { Self → TableRow → Bool };

    /// Whether a row of a table is sound, which has this key.
    fn is_sound(&self, alloc: Global, table: u16, key: &Key, row: &Row) -> Result<bool, AllocError>
        requires can { can_judge self.now }
        requires key { key.now ≡ key_of row.now }
        ensures { IfOk result (λ is. is ≡ sound self.now (record { table = table; row = row.now })) };
}

/// The judge to whom every row is sound.
#[derive(Clone, Copy, Debug)]
pub struct AnyRow;

impl RowJudge for AnyRow {
    ghost can_judge = { λ _. ⊤ };

    ghost sound = { λ _ _. true };

    fn is_sound(
        &self,
        _alloc: Global,
        _table: u16,
        _key: &Key,
        _row: &Row,
    ) -> Result<bool, AllocError> {
        Ok(true)
    }
}
