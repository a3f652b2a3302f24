//! The view of rows in a map.

ghost use Rattle.std.specs.Option.{option_copied};
ghost use Rattle.std.specs.Prelude.{◌≡◌};
ghost use Rattle.salt_eval.specs.MapViews.{row_of, rows_coming};
ghost use Rattle.salt_eval.specs.Views.{tables_of};

use crate::coming::Coming;
use crate::view::{RowView, ViewErr};
use salt_exprs::{Cells, Operand, in_column};
use salt_model::Place;
use salt_ranges::KeyRange;
use salt_values::{Key, Row, TryCopy, Value};
use sqlite_items::Items;
use std::alloc::{AllocError, Global};
use std::collections::BTreeMap;

/// The rows of all tables, by their places.
pub type Tables = BTreeMap<Place, Row>;

/// Shows the rows of a map. It has no faults.
#[derive(Drop)]
pub struct MapView<'a> {
    alloc: Global,
    rows: &'a Tables,
    // where it stands
    at: Option<&'a Row>,
    coming: Option<Coming<'a>>,
}

impl<'a> MapView<'a> {
    ghost use Rattle.salt_eval.specs.MapViews.{shown_by};

    /// The view of these rows.
    pub fn new(alloc: Global, rows: &'a Tables) -> MapView<'a>
        ensures { shown_by result ≡ tables_of rows.now.entries }
    {
        MapView {
            alloc,
            rows,
            at: None,
            coming: None,
        }
    }
}

/// The values of a row; none where there is no row.
fn values_of(row: Option<&Row>) -> &[Value]
    ensures { result.now ≡ row_of (option_copied row.entry) }
{
    match row {
        Some(row) => row.as_slice(),
        None => &[],
    }
}

impl<'a> Cells for MapView<'a> {
    ghost cells = { λ v. row_of (option_copied v.at) };

    fn operand<'r>(&'r self, _alloc: Global, number: usize) -> Result<Operand<'r>, AllocError> {
        Ok(in_column(values_of(self.at), number))
    }

    fn row(&self, alloc: Global) -> Result<Row, AllocError> {
        match self.at {
            Some(row) => row.copy(alloc),
            None => Ok(Items::new(alloc)),
        }
    }
}

impl<'a> RowView for MapView<'a> {
    ghost use Rattle.salt_eval.specs.MapViews.{shown_by};

    ghost tables = { shown_by };

    ghost Source = { Unit {0} };

    ghost shown_from = { λ _. tt };

    ghost faults = { λ _. 0 };

    ghost coming = { λ v. rows_coming v.coming };

    fn find(&mut self, table: u16, key: &Key) -> Result<bool, ViewErr> {
        let key = key.copy(self.alloc)?;
        self.at = self.rows.get(&Place { table, key });
        Ok(self.at.is_some())
    }

    fn start(&mut self, table: u16, range: &KeyRange) -> Result<(), ViewErr> {
        self.coming = Some(Coming::of(self.alloc, self.rows, table, range)?);
        Ok(())
    }

    fn step(&mut self) -> Result<bool, ViewErr> {
        let Some(coming) = &mut self.coming else {
            return Ok(false);
        };
        self.at = coming.next();
        Ok(self.at.is_some())
    }
}
