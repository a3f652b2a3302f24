//! Last writers of keys.

ghost use Rattle.salt_deps.specs.Group.{reads_in};
ghost use Rattle.salt_deps.specs.Reads.{AreFresh, AreRead, is_read, reads_entry};
ghost use Rattle.salt_model.specs.Tables.{place_cmp};
ghost use Rattle.salt_values.specs.Id.{has_id};
ghost use Rattle.salt_model.specs.declared.places.Place.{Place};
ghost use Rattle.salt_ranges.specs.Ranges.{is_range_empty};
ghost use Rattle.salt_values.specs.declared.id.Id.{Id};
ghost use Rattle.std.specs.BTreeMap.{IsOrdered};
ghost use Rattle.std.specs.Prelude.{◌≡◌, ◌||◌, IfOk, OnOk, false};

use crate::ends::last_place;
use crate::places::Writers;
use crate::readings::Readings;
use crate::sets::listed;
use salt_model::{Place, first_place};
use salt_ranges::KeyRange;
use salt_values::Id;
use std::alloc::{AllocError, Global};
use std::collections::{BTreeMap, BTreeSet};

/// Whether a reader of a range of a table reads what a program wrote at a place, and is another program.
fn is_read(place: &Place, source: Id, reader: Id, table: u16, range: &KeyRange) -> bool
    ensures { result ≡ is_read reader table range.now place.now source }
{
    place.table == table && range.has(&place.key) && source != reader
}

/// Adds a last writer to those that are found, if the reader reads what it wrote.
fn find(
    place: &Place,
    source: Id,
    reader: Id,
    table: u16,
    range: &KeyRange,
    found: &mut BTreeSet<Id>,
) -> Result<(), AllocError>
    ensures { OnOk result ((y : Id) → has_id y found.new.keys ≡ (has_id y found.old.keys || reads_entry reader table range.now y (place.now, source))) }
{
    if is_read(place, source, reader, table, range) {
        found.insert(source)?;
    }
    Ok(())
}

/// The last writers of the keys in a range of a table, other than the reader. Only the writers in the range are looked at.
fn writers_read(
    alloc: Global,
    writers: &BTreeMap<Place, Id>,
    reader: Id,
    table: u16,
    range: &KeyRange,
) -> Result<BTreeSet<Id>, AllocError>
    requires { is_range_empty range.now ≡ false }
    ensures ordered { IfOk result (λ _. IsOrdered place_cmp writers.now) }
    ensures read { IfOk result (λ found. AreRead reader table range.now writers.now.entries found.keys) }
{
    let mut found = BTreeSet::new(alloc);
    let first = first_place(alloc, table, &range.lo)?;
    let last = last_place(alloc, table, &range.hi)?;
    for (place, source) in writers.range((first, last)) {
        find(place, *source, reader, table, range, &mut found)?;
    }
    Ok(found)
}

/// The last writers of the keys in a range of a table from which a reader does not read yet, other than itself.
pub fn fresh_sources(
    alloc: Global,
    readings: &Readings,
    writers: &Writers,
    reader: Id,
    table: u16,
    range: &KeyRange,
) -> Result<Vec<Id>, AllocError>
    requires { is_range_empty range.now ≡ false }
    ensures ordered { IfOk result (λ _. IsOrdered place_cmp writers.now.last) }
    ensures fresh { IfOk result (λ fresh. AreFresh reader table range.now writers.now.last.entries (reads_in readings.now) fresh.items) }
{
    let found = writers_read(alloc, &writers.last, reader, table, range)?;
    let mut fresh = listed(alloc, &found)?;
    fresh.retain(|source| !readings.reads(reader, *source));
    Ok(fresh)
}
