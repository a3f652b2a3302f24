//! What stands at the front of bytes, and the bytes behind it.

ghost use Rattle.salt_bytes.specs.Ids.{take_id};
ghost use Rattle.salt_bytes.specs.Numbers.{take_16, take_32, take_64};
ghost use Rattle.salt_bytes.specs.Taking.{take_byte, take_bytes, take_each};
ghost use Rattle.salt_bytes.specs.Values.{take_row, take_value};
ghost use Rattle.salt_codec.specs.Taking.{TakesSame, TakesBytes, take_text};
ghost use Rattle.std.specs.Prelude.{◌≡◌};

use crate::error::TakeErr;
use byteorder::{BigEndian, ByteOrder};
use salt_values::{Id, Row, Text, Value};
use sqlite_items::Items;
use std::alloc::Global;

/// The first byte.
pub fn take_byte(bytes: &[u8]) -> Result<(u8, &[u8]), TakeErr>
    ensures { TakesSame result (take_byte bytes.now) }
{
    match bytes {
        [byte, rest @ ..] => Ok((*byte, rest)),
        [] => Err(TakeErr::Misspelled),
    }
}

/// So many bytes.
pub fn take_bytes(bytes: &[u8], count: usize) -> Result<(&[u8], &[u8]), TakeErr>
    ensures { TakesBytes result (take_bytes count bytes.now) }
{
    if bytes.len() < count {
        return Err(TakeErr::Misspelled);
    }
    Ok((&bytes[..count], &bytes[count..]))
}

/// A number in eight bytes.
pub fn take_u64(bytes: &[u8]) -> Result<(u64, &[u8]), TakeErr>
    ensures { TakesSame result (take_64 bytes.now) }
{
    let (number, rest) = take_bytes(bytes, 8)?;
    Ok((BigEndian::read_u64(number), rest))
}

/// A number in four bytes.
pub fn take_u32(bytes: &[u8]) -> Result<(u32, &[u8]), TakeErr>
    ensures { TakesSame result (take_32 bytes.now) }
{
    let (number, rest) = take_bytes(bytes, 4)?;
    Ok((BigEndian::read_u32(number), rest))
}

/// A number in two bytes.
pub fn take_u16(bytes: &[u8]) -> Result<(u16, &[u8]), TakeErr>
    ensures { TakesSame result (take_16 bytes.now) }
{
    let (number, rest) = take_bytes(bytes, 2)?;
    Ok((BigEndian::read_u16(number), rest))
}

/// A unit's or a program's name.
pub fn take_id(bytes: &[u8]) -> Result<(Id, &[u8]), TakeErr>
    ensures { TakesSame result (take_id bytes.now) }
{
    let (boot, rest) = take_u64(bytes)?;
    let (seq, rest) = take_u64(rest)?;
    Ok((Id { boot, seq }, rest))
}

fn take_text(alloc: Global, bytes: &[u8]) -> Result<(Value, &[u8]), TakeErr>
    ensures { TakesSame result (take_text bytes.now) }
{
    let (count, rest) = take_byte(bytes)?;
    let (text, rest) = take_bytes(rest, count as usize)?;
    Ok((Value::Text(Text::new(alloc, text)?), rest))
}

/// A value; NULL only where it is spelled.
pub fn take_value(alloc: Global, nulls: bool, bytes: &[u8]) -> Result<(Value, &[u8]), TakeErr>
    ensures { TakesSame result (take_value nulls bytes.now) }
{
    let (kind, rest) = take_byte(bytes)?;
    match kind {
        0 if nulls => Ok((Value::Null, rest)),
        1 => {
            let (number, rest) = take_u64(rest)?;
            Ok((Value::Int(number.cast_signed()), rest))
        }
        2 => take_text(alloc, rest),
        _ => Err(TakeErr::Misspelled),
    }
}

/// So many values, one behind the other.
pub fn take_values(
    alloc: Global,
    nulls: bool,
    count: u8,
    bytes: &[u8],
) -> Result<(Row, &[u8]), TakeErr>
    ensures { TakesSame result (take_each (take_value nulls) count bytes.now) }
{
    let mut values = Vec::with_capacity(alloc, count as usize)?;
    let mut rest = bytes;
    for _taken in 0..count {
        let (value, behind) = take_value(alloc, nulls, rest)?;
        values.push(value)?;
        rest = behind;
    }
    Ok((Items::from_vec(values), rest))
}

/// A row; NULL only where it is spelled.
pub fn take_row_from(alloc: Global, nulls: bool, bytes: &[u8]) -> Result<(Row, &[u8]), TakeErr>
    ensures { TakesSame result (take_row nulls bytes.now) }
{
    let (count, rest) = take_byte(bytes)?;
    if count < 1 || 16 < count {
        return Err(TakeErr::Misspelled);
    }
    take_values(alloc, nulls, count, rest)
}
