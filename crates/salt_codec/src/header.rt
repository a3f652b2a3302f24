//! The header of a partition's log.

ghost use Rattle.salt_bytes.specs.Coordinator.{take_word};
ghost use Rattle.salt_bytes.specs.Numbers.{take_32};
ghost use Rattle.salt_bytes.specs.Partition.{is_side, partition_header_in, spell_partition_header, take_partition_header};
ghost use Rattle.salt_bytes.specs.Taking.{take_bytes, then_take};
ghost use Rattle.salt_codec.specs.Entries.{header_of, take_pages_named};
ghost use Rattle.salt_codec.specs.Taking.{TakesAs, TakesBytes};
ghost use Rattle.salt_codec.specs.EntryTaking.{TakesWord};
ghost use Rattle.std.specs.List.{list_all};
ghost use Rattle.std.specs.Prelude.{IfOk, codes, length, option_map, ◌<◌, ◌^◌, ◌≡◌};

use crate::error::TakeErr;
use crate::put::{with_byte, with_bytes, with_u32, with_u64};
use crate::take::{take_byte, take_bytes, take_u32, take_u64};
use sqlite_items::Items;
use std::alloc::{AllocError, Global};

/// What the first entry of a partition's log says.
#[derive(Debug, Drop)]
pub struct Header {
    /// From 2 on, NULL is spelled.
    pub format: u8,
    /// At least 1.
    pub generation: u64,
    pub part: u8,
    /// The side of each page, 0 or 1.
    pub sides: Items<u8>,
}

/// The spelling of a header, which names fewer than 2^32 pages.
pub fn spell_header(alloc: Global, header: &Header) -> Result<Vec<u8>, AllocError>
    requires { length header.now.sides < 2 ^ 32 }
    ensures { IfOk result (λ made. made.items ≡ spell_partition_header (header_of header.now)) }
{
    let room = Vec::with_capacity(alloc, header.sides.len().saturating_add(19))?;
    let out = with_bytes(room, b"SALTP")?;
    let out = with_byte(out, header.format)?;
    let out = with_u64(out, header.generation)?;
    let out = with_byte(out, header.part)?;
    let out = with_u32(out, header.sides.len() as u32)?;
    with_bytes(out, header.sides.as_slice())
}

fn take_word(bytes: &[u8]) -> Result<&[u8], TakeErr>
    ensures { TakesWord result (take_word (codes "SALTP") bytes.now) }
{
    let (word, rest) = take_bytes(bytes, 5)?;
    if word == b"SALTP".as_slice() {
        Ok(rest)
    } else {
        Err(TakeErr::Misspelled)
    }
}

fn is_side(side: u8) -> bool
    ensures { result ≡ is_side side }
{
    side <= 1
}

fn are_sides(sides: &[u8]) -> bool
    ensures { result ≡ list_all is_side sides.now }
{
    sides.iter().all(|side| is_side(*side))
}

fn take_sides(bytes: &[u8]) -> Result<(&[u8], &[u8]), TakeErr>
    ensures { TakesBytes result (then_take take_32 take_bytes bytes.now) }
{
    let (count, rest) = take_u32(bytes)?;
    take_bytes(rest, count as usize)
}

fn take_pages_named(
    alloc: Global,
    format: u8,
    generation: u64,
    bytes: &[u8],
) -> Result<(Header, &[u8]), TakeErr>
    ensures { TakesAs header_of result (take_pages_named format generation bytes.now) }
{
    let (part, rest) = take_byte(bytes)?;
    let (sides, rest) = take_sides(rest)?;
    if !are_sides(sides) {
        return Err(TakeErr::Misspelled);
    }
    let sides = Items::from_slice(alloc, sides)?;
    let header = Header {
        format,
        generation,
        part,
        sides,
    };
    Ok((header, rest))
}

fn take_header(alloc: Global, bytes: &[u8]) -> Result<(Header, &[u8]), TakeErr>
    ensures { TakesAs header_of result (take_partition_header bytes.now) }
{
    let rest = take_word(bytes)?;
    let (format, rest) = take_byte(rest)?;
    if format < 1 || 2 < format {
        return Err(TakeErr::Misspelled);
    }
    let (generation, rest) = take_u64(rest)?;
    if generation < 1 {
        return Err(TakeErr::Misspelled);
    }
    take_pages_named(alloc, format, generation, rest)
}

/// The header that these bytes are; `None` exactly where they are the spelling of none.
pub fn read_header(alloc: Global, bytes: &[u8]) -> Result<Option<Header>, AllocError>
    ensures { IfOk result (λ found. option_map header_of found ≡ partition_header_in bytes.now) }
{
    match take_header(alloc, bytes) {
        Ok((header, [])) => Ok(Some(header)),
        Ok((_header, [_, ..])) => Ok(None),
        Err(TakeErr::Misspelled) => Ok(None),
        Err(TakeErr::Memory) => Err(AllocError),
    }
}
