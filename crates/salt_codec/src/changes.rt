//! Changes as bytes.

ghost use Rattle.salt_bytes.specs.Changes.{spell_change, take_change};
ghost use Rattle.salt_bytes.specs.Numbers.{spell_counted, take_counted};
ghost use Rattle.salt_bytes.specs.Spellable.{Every};
ghost use Rattle.salt_bytes.specs.Taking.{take_each};
ghost use Rattle.salt_codec.specs.Entries.{HasRow};
ghost use Rattle.salt_codec.specs.Taking.{TakesSame};
ghost use Rattle.salt_codec.specs.EntryTaking.{TakesVec};
ghost use Rattle.std.specs.Prelude.{IfOk, ◌++◌, ◌≡◌};
ghost use Rattle.salt_values.specs.Value.{key_of};
ghost use Rattle.std.specs.List.{flat_map};

use crate::error::TakeErr;
use crate::put::{with_byte, with_row, with_u16, with_u64, with_value};
use crate::take::{take_byte, take_row_from, take_u16, take_u64, take_value};
use salt_values::{Change, Key, Row, TryCopy, Value};
use std::alloc::{AllocError, Global};

fn with_change(out: Vec<u8>, change: &Change) -> Result<Vec<u8>, AllocError>
    requires { HasRow change.now }
    ensures { IfOk result (λ made. made.items ≡ out.items ++ spell_change change.now) }
{
    let out = with_u16(out, change.table)?;
    match &change.row {
        None => {
            let out = with_byte(out, 0)?;
            with_value(out, &change.key)
        }
        Some(row) => {
            let out = with_byte(out, 1)?;
            with_row(out, row.as_slice())
        }
    }
}

fn with_each_change(mut out: Vec<u8>, changes: &[Change]) -> Result<Vec<u8>, AllocError>
    requires { Every HasRow changes.now }
    ensures { IfOk result (λ made. made.items ≡ out.items ++ flat_map spell_change changes.now) }
{
    for change in changes {
        out = with_change(out, change)?;
    }
    Ok(out)
}

/// Changes behind their number, appended.
pub fn with_changes(out: Vec<u8>, changes: &[Change]) -> Result<Vec<u8>, AllocError>
    requires { Every HasRow changes.now }
    ensures { IfOk result (λ made. made.items ≡ out.items ++ spell_counted spell_change changes.now) }
{
    let out = with_u64(out, changes.len() as u64)?;
    with_each_change(out, changes)
}

/// A row's key is its first value.
fn key_of(alloc: Global, row: &Row) -> Result<Key, AllocError>
    ensures { IfOk result (λ key. key ≡ key_of row.now) }
{
    match row.as_slice() {
        [key, ..] => key.copy(alloc),
        [] => Ok(Value::Int(0)),
    }
}

fn take_change(alloc: Global, nulls: bool, bytes: &[u8]) -> Result<(Change, &[u8]), TakeErr>
    ensures { TakesSame result (take_change nulls bytes.now) }
{
    let (table, rest) = take_u16(bytes)?;
    let (kind, rest) = take_byte(rest)?;
    match kind {
        0 => {
            let (key, rest) = take_value(alloc, false, rest)?;
            let row = None;
            Ok((Change { table, key, row }, rest))
        }
        1 => {
            let (row, rest) = take_row_from(alloc, nulls, rest)?;
            let key = key_of(alloc, &row)?;
            let row = Some(row);
            Ok((Change { table, key, row }, rest))
        }
        _ => Err(TakeErr::Misspelled),
    }
}

fn take_each_change(
    alloc: Global,
    nulls: bool,
    count: u64,
    bytes: &[u8],
) -> Result<(Vec<Change>, &[u8]), TakeErr>
    ensures { TakesVec result (take_each (take_change nulls) count bytes.now) }
{
    // the number is not judged yet, and asks for no more room than few changes take
    let mut changes = Vec::with_capacity(alloc, count.min(16) as usize)?;
    let mut rest = bytes;
    for _taken in 0..count {
        let (change, behind) = take_change(alloc, nulls, rest)?;
        changes.push(change)?;
        rest = behind;
    }
    Ok((changes, rest))
}

/// Changes behind their number.
pub fn take_changes(
    alloc: Global,
    nulls: bool,
    bytes: &[u8],
) -> Result<(Vec<Change>, &[u8]), TakeErr>
    ensures { TakesVec result (take_counted (take_change nulls) bytes.now) }
{
    let (count, rest) = take_u64(bytes)?;
    take_each_change(alloc, nulls, count, rest)
}
