//! The units that a partition's log holds.

ghost use Rattle.salt_bytes.specs.Changes.{are_in_order};
ghost use Rattle.salt_bytes.specs.Partition.{prepared_in, spell_prepared, take_prepared};
ghost use Rattle.salt_bytes.specs.Spellable.{Every};
ghost use Rattle.salt_codec.specs.Entries.{HasRow, CanBePut, prepared_of};
ghost use Rattle.salt_codec.specs.Taking.{TakesAs};
ghost use Rattle.std.specs.Prelude.{Bool, IfOk, Some, option_map, true, ◌++◌, ◌≡◌};

use crate::changes::{take_changes, with_changes};
use crate::error::TakeErr;
use crate::order::are_in_order;
use crate::put::{with_byte, with_id};
use crate::take::{take_byte, take_id};
use crate::told::told_changes;
use salt_values::{Change, Id};
use std::alloc::{AllocError, Global};

/// A unit that is prepared: its changes in this partition, in order of table and key, each key once.
#[derive(Drop)]
pub struct PreparedUnit {
    pub unit: Id,
    pub changes: Vec<Change>,
}

fn with_unit(out: Vec<u8>, unit: Id, changes: &[Change]) -> Result<Vec<u8>, AllocError>
    requires { Every HasRow changes.now }
    ensures { IfOk result (λ made. made.items ≡ out.items ++ spell_prepared (record { unit = unit; changes = changes.now })) }
{
    let out = with_byte(out, 1)?;
    let out = with_id(out, unit)?;
    with_changes(out, changes)
}

/// The entry of a unit whose rows have 1 to 16 values, appended to bytes, which are handed back, or given up where memory runs
/// out. It is read again where its changes are in order, each row's first value is its key, no key is NULL, and NULL stands only
/// where it is spelled.
pub fn with_prepared(out: Vec<u8>, unit: Id, changes: &[Change]) -> Result<Vec<u8>, AllocError>
    requires { Every HasRow changes.now }
    ensures bytes { IfOk result (λ made. made.items ≡ out.items ++ spell_prepared (record { unit = unit; changes = changes.now })) }
    ensures read { (nulls : Bool) → Every (CanBePut nulls) changes.now → are_in_order changes.now ≡ true
        → prepared_in nulls (spell_prepared (record { unit = unit; changes = changes.now })) ≡ Some (record { unit = unit; changes = changes.now }) }
{
    told_changes(changes);
    with_unit(out, unit, changes)
}

fn take_prepared(alloc: Global, nulls: bool, bytes: &[u8]) -> Result<(PreparedUnit, &[u8]), TakeErr>
    ensures { TakesAs prepared_of result (take_prepared nulls bytes.now) }
{
    let (kind, rest) = take_byte(bytes)?;
    if kind != 1 {
        return Err(TakeErr::Misspelled);
    }
    let (unit, rest) = take_id(rest)?;
    let (changes, rest) = take_changes(alloc, nulls, rest)?;
    if !are_in_order(changes.as_slice()) {
        return Err(TakeErr::Misspelled);
    }
    Ok((PreparedUnit { unit, changes }, rest))
}

/// The prepared unit that these bytes are; `None` exactly where they are the spelling of none. Where `nulls` is false no NULL
/// is spelled.
pub fn read_prepared(
    alloc: Global,
    nulls: bool,
    bytes: &[u8],
) -> Result<Option<PreparedUnit>, AllocError>
    ensures { IfOk result (λ found. option_map prepared_of found ≡ prepared_in nulls bytes.now) }
{
    match take_prepared(alloc, nulls, bytes) {
        Ok((unit, [])) => Ok(Some(unit)),
        Ok((_unit, [_, ..])) => Ok(None),
        Err(TakeErr::Misspelled) => Ok(None),
        Err(TakeErr::Memory) => Err(AllocError),
    }
}
