//! Whether changes and rows of a partition fit the tables that are defined.

ghost use Rattle.salt_codec.specs.Entries.{prepared_of};
ghost use Rattle.salt_model.specs.Kept.{Definition};
ghost use Rattle.salt_parts.specs.Judging.{HasTables, fits_part};
ghost use Rattle.salt_place.specs.Placement.{GivesPlaceOf, IsParts, TakesEachKey};
ghost use Rattle.salt_stands.specs.Coordinator.{Coordinator};
ghost use Rattle.salt_stands.specs.Fitting.{definitions_reading, is_key_of};
ghost use Rattle.salt_stands.specs.OpenedPart.{fits_definitions};
ghost use Rattle.salt_stands.specs.Partition.{is_sound_change, part_of_key};
ghost use Rattle.std.specs.List.{list_all};
ghost use Rattle.std.specs.Prelude.{IfOk, List, Option, slice_get, ℕ, ◌<◌, ◌==◌, ◌≡◌};

use salt_codec::PreparedUnit;
use salt_directory::RowJudge;
use salt_eval::meets_table;
use salt_place::{PlaceKind, Placement, Shape};
use salt_schema::{Schema, same_types, value_type};
use salt_values::{Change, Key, Row, Value};
use std::alloc::{AllocError, Global};

/// The partition of a key. NULL, which is no key, counts as of the first.
pub fn part_of<F: Fn(PlaceKind, &Key, u32) -> u32>(
    place: &Placement<F>,
    shape: Shape,
    key: &Key,
) -> u32
    requires callable { TakesEachKey (F.pre place.now.place) }
    requires answers { GivesPlaceOf (F.post place.now.place) }
    requires parts { IsParts shape.parts }
    ensures part { result ≡ part_of_key shape key.now }
    ensures below { result < shape.parts }
{
    key.told();
    match key {
        Value::Null => 0,
        _ => place.of(shape, key),
    }
}

/// Whether a value has the type of the key of the table of this number.
fn is_key_of(schema: &Schema, table: u16, key: &Key) -> bool
    ensures { result ≡ is_key_of (slice_get schema.now table) key.now }
{
    let Some(def) = schema.table(table) else {
        return false;
    };
    match def.columns.as_slice() {
        [first, ..] => same_types(Some(first.kind), value_type(key)),
        [] => false,
    }
}

/// A judge of what stands in one partition: whether it is of a table that is defined and fits it, and is of a key of this partition.
#[derive(Drop)]
pub struct PartJudge<'a, F: Fn(PlaceKind, &Key, u32) -> u32> {
    /// Which partition a key is of.
    pub place: &'a Placement<F>,
    /// How many partitions there are, and how rows are spread over them.
    pub shape: Shape,
    /// The tables that are defined.
    pub schema: &'a Schema,
    /// The number of the partition.
    pub part: u8,
}

impl<F: Fn(PlaceKind, &Key, u32) -> u32> PartJudge<'_, F> {
    /// Whether a key is of this partition.
    fn has_key(&self, key: &Key) -> bool
        requires callable { TakesEachKey (F.pre self.now.place.now.place) }
        requires answers { GivesPlaceOf (F.post self.now.place.now.place) }
        requires parts { IsParts self.now.shape.parts }
        ensures { result ≡ (part_of_key self.now.shape key.now == self.now.part) }
    {
        part_of(self.place, self.shape, key) == u32::from(self.part)
    }

    /// Whether a change is of a table that is defined, and to a row of it that stands here, or of a key of it.
    fn change_fits(&self, alloc: Global, change: &Change) -> Result<bool, AllocError>
        requires callable { TakesEachKey (F.pre self.now.place.now.place) }
        requires answers { GivesPlaceOf (F.post self.now.place.now.place) }
        requires parts { IsParts self.now.shape.parts }
        ensures { (read : List ℕ → Option Definition) (c : Coordinator Definition) → HasTables self.now.schema.now self.now.shape c
            → IfOk result (λ fits. fits ≡ is_sound_change (definitions_reading read) c self.now.part change.now) }
    {
        if usize::from(change.table) >= self.schema.count() {
            return Ok(false);
        }
        match &change.row {
            Some(row) => {
                let meets = meets_table(alloc, self.schema, change.table, row)?;
                Ok(meets && self.has_key(&change.key))
            }
            None => Ok(is_key_of(self.schema, change.table, &change.key)),
        }
    }

    /// Whether each change does.
    fn changes_fit(&self, alloc: Global, changes: &[Change]) -> Result<bool, AllocError>
        requires callable { TakesEachKey (F.pre self.now.place.now.place) }
        requires answers { GivesPlaceOf (F.post self.now.place.now.place) }
        requires parts { IsParts self.now.shape.parts }
        ensures { (read : List ℕ → Option Definition) (c : Coordinator Definition) → HasTables self.now.schema.now self.now.shape c
            → IfOk result (λ fit. fit ≡ list_all (is_sound_change (definitions_reading read) c self.now.part) changes.now) }
    {
        for change in changes {
            if !self.change_fits(alloc, change)? {
                return Ok(false);
            }
        }
        Ok(true)
    }

    /// Whether each change of each of these units does.
    pub fn units_fit(&self, alloc: Global, units: &[PreparedUnit]) -> Result<bool, AllocError>
        requires callable { TakesEachKey (F.pre self.now.place.now.place) }
        requires answers { GivesPlaceOf (F.post self.now.place.now.place) }
        requires parts { IsParts self.now.shape.parts }
        ensures { (read : List ℕ → Option Definition) (c : Coordinator Definition) → HasTables self.now.schema.now self.now.shape c
            → IfOk result (λ fit. fit ≡ list_all (λ u. fits_definitions (definitions_reading read) c self.now.part (prepared_of u)) units.now) }
    {
        for unit in units {
            if !self.changes_fit(alloc, unit.changes.as_slice())? {
                return Ok(false);
            }
        }
        Ok(true)
    }
}

impl<F: Fn(PlaceKind, &Key, u32) -> u32> RowJudge for PartJudge<'_, F> {
    ghost can_judge = { λ j. TakesEachKey (F.pre j.place.now.place) × GivesPlaceOf (F.post j.place.now.place) × IsParts j.shape.parts };

    ghost sound = { λ j. fits_part j.schema.now j.shape j.part };

    fn is_sound(
        &self,
        alloc: Global,
        table: u16,
        key: &Key,
        row: &Row,
    ) -> Result<bool, AllocError> {
        let meets = meets_table(alloc, self.schema, table, row)?;
        Ok(meets && self.has_key(key))
    }
}
