//! The lines of what is shown.

ghost use Rattle.std.specs.Prelude.{◌≡◌, IfOk, MatchOption, None, Some};
ghost use Rattle.salt_events.specs.Items.{base_item_in, family_at, high_in, item_in, lock_in, mode_at, of_base, of_owner, on_table, place_in, range_in, table_at};

use crate::fronts::{behind, id};
use crate::lists::owner;
use crate::names::name;
use crate::parts::part;
use crate::values::value;
use salt_ast::same_bytes;
use salt_model::{BaseAt, Family, Item, Lock, Mode, Owner};
use salt_ranges::KeyRange;
use salt_schema::Schema;
use salt_values::{Id, Key};
use sqlite_items::Items;
use std::alloc::{AllocError, Global};

fn family(bytes: &[u8]) -> Option<(Family, &[u8])>
    ensures { MatchOption result (family_at bytes.now ≡ None) (λ r. family_at bytes.now ≡ Some (r.0, r.1.now)) }
{
    if let Some(rest) = behind(b"acid ", bytes) {
        return Some((Family::Acid, rest));
    }
    if let Some(rest) = behind(b"alkaline ", bytes) {
        return Some((Family::Alkaline, rest));
    }
    let rest = behind(b"saline ", bytes)?;
    Some((Family::Saline, rest))
}

fn mode(bytes: &[u8]) -> Option<(Mode, &[u8])>
    ensures { MatchOption result (mode_at bytes.now ≡ None) (λ r. mode_at bytes.now ≡ Some (r.0, r.1.now)) }
{
    if let Some(rest) = behind(b"read ", bytes) {
        return Some((Mode::Read, rest));
    }
    let rest = behind(b"write ", bytes)?;
    Some((Mode::Write, rest))
}

/// The number of the table whose name is in front.
fn table<'a>(
    alloc: Global,
    schema: &Schema,
    bytes: &'a [u8],
) -> Result<Option<(u16, &'a [u8])>, AllocError>
    ensures { IfOk result (λ o. MatchOption o (table_at schema.now bytes.now ≡ None) (λ r. table_at schema.now bytes.now ≡ Some (r.0, r.1.now))) }
{
    let Some((word, rest)) = name(bytes) else {
        return Ok(None);
    };
    let word = Items::from_slice(alloc, word)?;
    let Some(number) = schema.number(&word) else {
        return Ok(None);
    };
    Ok(Some((number, rest)))
}

/// The upper end, behind the lower one.
fn high(alloc: Global, lo: Key, bytes: &[u8]) -> Result<Option<KeyRange>, AllocError>
    ensures { IfOk result (λ r. r ≡ high_in lo bytes.now) }
{
    let Some((hi, rest)) = value(alloc, bytes)? else {
        return Ok(None);
    };
    if !rest.is_empty() {
        return Ok(None);
    }
    Ok(Some(KeyRange {
        lo: Some(lo),
        hi: Some(hi),
    }))
}

/// Both ends, or all.
fn range(alloc: Global, bytes: &[u8]) -> Result<Option<KeyRange>, AllocError>
    ensures { IfOk result (λ r. r ≡ range_in bytes.now) }
{
    let Some((lo, rest)) = value(alloc, bytes)? else {
        if !same_bytes(bytes, b"all") {
            return Ok(None);
        }
        return Ok(Some(KeyRange { lo: None, hi: None }));
    };
    let Some(rest) = behind(b"..", rest) else {
        return Ok(None);
    };
    high(alloc, lo, rest)
}

/// What is locked, behind the mode.
fn on_table(
    alloc: Global,
    schema: &Schema,
    owner: Owner,
    family: Family,
    mode: Mode,
    bytes: &[u8],
) -> Result<Option<Item>, AllocError>
    ensures { IfOk result (λ r. r ≡ on_table schema.now owner family mode bytes.now) }
{
    let Some((table, rest)) = table(alloc, schema, bytes)? else {
        return Ok(None);
    };
    let Some(rest) = behind(b" ", rest) else {
        return Ok(None);
    };
    let Some(range) = range(alloc, rest)? else {
        return Ok(None);
    };
    Ok(Some(Item::Lock(Lock {
        owner,
        family,
        mode,
        table,
        range,
    })))
}

/// A lock, behind its owner.
fn of_owner(
    alloc: Global,
    schema: &Schema,
    owner: Owner,
    bytes: &[u8],
) -> Result<Option<Item>, AllocError>
    ensures { IfOk result (λ r. r ≡ of_owner schema.now owner bytes.now) }
{
    let Some((family, rest)) = family(bytes) else {
        return Ok(None);
    };
    let Some((mode, rest)) = mode(rest) else {
        return Ok(None);
    };
    on_table(alloc, schema, owner, family, mode, rest)
}

fn lock(alloc: Global, schema: &Schema, bytes: &[u8]) -> Result<Option<Item>, AllocError>
    ensures { IfOk result (λ r. r ≡ lock_in schema.now bytes.now) }
{
    let Some((owner, rest)) = owner(bytes) else {
        return Ok(None);
    };
    let Some(rest) = behind(b" ", rest) else {
        return Ok(None);
    };
    of_owner(alloc, schema, owner, rest)
}

fn place(bytes: &[u8]) -> Option<BaseAt>
    ensures { result ≡ place_in bytes.now }
{
    if let Some(rest) = behind(b"next ", bytes) {
        let part = part(rest)?;
        return Some(BaseAt::Next(part));
    }
    if same_bytes(bytes, b"first") {
        return Some(BaseAt::First);
    }
    if same_bytes(bytes, b"finished") {
        return Some(BaseAt::Finished);
    }
    None
}

/// A program, behind its name.
fn of_base(alloc: Global, base: Id, bytes: &[u8]) -> Result<Option<Item>, AllocError>
    ensures { IfOk result (λ r. r ≡ of_base base bytes.now) }
{
    let Some((word, rest)) = name(bytes) else {
        return Ok(None);
    };
    let Some(rest) = behind(b" ", rest) else {
        return Ok(None);
    };
    let Some(at) = place(rest) else {
        return Ok(None);
    };
    let program = Items::from_slice(alloc, word)?;
    Ok(Some(Item::Base { base, program, at }))
}

fn base_item(alloc: Global, bytes: &[u8]) -> Result<Option<Item>, AllocError>
    ensures { IfOk result (λ r. r ≡ base_item_in bytes.now) }
{
    let Some((base, rest)) = id(bytes) else {
        return Ok(None);
    };
    let Some(rest) = behind(b" ", rest) else {
        return Ok(None);
    };
    of_base(alloc, base, rest)
}

/// The item whose line the bytes are, without the LF that ends it, where these are the tables.
pub fn read_item(alloc: Global, schema: &Schema, line: &[u8]) -> Result<Option<Item>, AllocError>
    ensures { IfOk result (λ r. r ≡ item_in schema.now line.now) }
{
    if let Some(rest) = behind(b"lock ", line) {
        return lock(alloc, schema, rest);
    }
    let Some(rest) = behind(b"base b", line) else {
        return Ok(None);
    };
    base_item(alloc, rest)
}
