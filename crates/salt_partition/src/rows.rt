//! The rows that changes make.

ghost use Rattle.salt_model.specs.Tables.{Tables, no_rows, with_changes};
ghost use Rattle.salt_partition.specs.Contents.{units_of};
ghost use Rattle.salt_partition.specs.Partitions.{IsLastKept};
ghost use Rattle.salt_stands.specs.Partition.{decided_changes};
ghost use Rattle.std.specs.Prelude.{IfOk, OnOk, ◌≡◌};

use crate::sets::{is_in, set_of};
use salt_codec::PreparedUnit;
use salt_eval::Tables;
use salt_model::Place;
use salt_values::{Change, Id};
use std::alloc::{AllocError, Global};
use std::collections::BTreeMap;

/// Makes changes, one after another. Where memory runs out, those before it are made.
pub fn make_changes(rows: &mut Tables, changes: Vec<Change>) -> Result<(), AllocError>
    ensures { OnOk result ((t : Tables) → rows.old.entries ≡ t.list → rows.new.entries ≡ (with_changes changes.items t).list) }
{
    for change in changes {
        let Change { table, key, row } = change;
        let place = Place { table, key };
        match row {
            Some(row) => {
                rows.insert(place, row)?;
            }
            None => {
                rows.remove(&place);
            }
        }
    }
    Ok(())
}

/// The rows that the decided ones of these units make, in order of entries; and the last unit, where it is not decided.
pub fn rows_of(
    alloc: Global,
    decided: &[Id],
    units: Vec<PreparedUnit>,
) -> Result<(Tables, Option<PreparedUnit>), AllocError>
    ensures rows { IfOk result (λ made. made.0.entries ≡ (with_changes (decided_changes decided.now (units_of units.items)) no_rows).list) }
    ensures last { IfOk result (λ made. IsLastKept decided.now (units_of units.items) made.1) }
{
    let applied = set_of(alloc, decided)?;
    let mut rows = BTreeMap::new(alloc);
    let mut last = None;
    for prepared in units {
        if is_in(&applied, prepared.unit) {
            make_changes(&mut rows, prepared.changes)?;
            last = None;
        } else {
            last = Some(prepared);
        }
    }
    Ok((rows, last))
}
