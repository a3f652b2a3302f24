//! The header of a coordinator's log, taken from its bytes.

ghost use Rattle.salt_bytes.specs.Coordinator.{header_in, is_number_of_parts, take_header, take_kind, take_numbered, take_text, take_word};
ghost use Rattle.salt_bytes.specs.Numbers.{take_counted};
ghost use Rattle.salt_bytes.specs.Taking.{take_each};
ghost use Rattle.salt_decisions.specs.Header.{header_of, mark, numbered_of, take_lists, take_numbers, take_shape};
ghost use Rattle.salt_codec.specs.Taking.{TakesSame, TakesAs, TakesBytes};
ghost use Rattle.salt_place.specs.declared.placement.PlaceKind.{PlaceKind};
ghost use Rattle.std.specs.Prelude.{IfOk, IfSome, map, option_map, true, ◌≡◌};

use crate::conts::take_conts;
use salt_codec::TakeErr;
use salt_codec::take::{take_byte, take_bytes, take_u64};
use salt_place::{PlaceKind, Shape};
use salt_values::{Bytes, Conts};
use sqlite_items::Items;
use std::alloc::{AllocError, Global};

/// What a coordinator's log begins with.
pub const MARK: [u8; 5] = *b"SALTC";

/// A definition: the number of its decision, and its canonical text.
#[derive(Drop)]
pub struct Definition {
    pub number: u64,
    pub text: Bytes,
}

/// Definitions, in the order of their numbers.
pub type Definitions = Items<Definition>;

/// What stood when a coordinator's log was begun.
#[derive(Drop)]
pub struct Header {
    pub format: u8,
    pub generation: u64,
    pub shape: Shape,
    pub boot: u64,
    pub decisions: u64,
    pub definitions: Definitions,
    pub conts: Conts,
}

/// Bytes behind their length.
pub fn take_text(alloc: Global, bytes: &[u8]) -> Result<(Bytes, &[u8]), TakeErr>
    ensures { TakesSame result (take_text bytes.now) }
{
    let (count, rest) = take_u64(bytes)?;
    let (text, rest) = take_bytes(rest, count as usize)?;
    Ok((Items::from_slice(alloc, text)?, rest))
}

pub fn take_definition(alloc: Global, bytes: &[u8]) -> Result<(Definition, &[u8]), TakeErr>
    ensures { TakesAs numbered_of result (take_numbered bytes.now) }
{
    let (number, rest) = take_u64(bytes)?;
    let (text, rest) = take_text(alloc, rest)?;
    Ok((Definition { number, text }, rest))
}

/// So many definitions, one behind the other.
fn take_each_definition(
    alloc: Global,
    count: u64,
    bytes: &[u8],
) -> Result<(Definitions, &[u8]), TakeErr>
    ensures { TakesAs (map numbered_of) result (take_each take_numbered count bytes.now) }
{
    let mut definitions = Items::new(alloc);
    let mut rest = bytes;
    for _taken in 0..count {
        let (definition, behind) = take_definition(alloc, rest)?;
        definitions.push(definition)?;
        rest = behind;
    }
    Ok((definitions, rest))
}

/// Definitions, behind their number.
fn take_definitions(alloc: Global, bytes: &[u8]) -> Result<(Definitions, &[u8]), TakeErr>
    ensures { TakesAs (map numbered_of) result (take_counted take_numbered bytes.now) }
{
    let (count, rest) = take_u64(bytes)?;
    take_each_definition(alloc, count, rest)
}

/// The mark that the log begins with; nothing but what is behind it is of use.
fn take_mark(bytes: &[u8]) -> Result<(&[u8], &[u8]), TakeErr>
    ensures { TakesBytes result (take_word mark bytes.now) }
{
    let (word, rest) = take_bytes(bytes, 5)?;
    if word != MARK.as_slice() {
        return Err(TakeErr::Misspelled);
    }
    Ok((word, rest))
}

fn take_kind(bytes: &[u8]) -> Result<(PlaceKind, &[u8]), TakeErr>
    ensures { TakesSame result (take_kind bytes.now) }
{
    let (kind, rest) = take_byte(bytes)?;
    match kind {
        0 => Ok((PlaceKind::Remainder, rest)),
        1 => Ok((PlaceKind::Bands, rest)),
        _ => Err(TakeErr::Misspelled),
    }
}

/// The end of a header: its definitions and continuations.
fn take_lists(
    alloc: Global,
    format: u8,
    generation: u64,
    shape: Shape,
    boot: u64,
    decisions: u64,
    bytes: &[u8],
) -> Result<(Header, &[u8]), TakeErr>
    ensures { TakesAs header_of result (take_lists format generation shape boot decisions bytes.now) }
{
    let (definitions, rest) = take_definitions(alloc, bytes)?;
    let (conts, rest) = take_conts(alloc, format, rest)?;
    let header = Header {
        format,
        generation,
        shape,
        boot,
        decisions,
        definitions,
        conts,
    };
    Ok((header, rest))
}

/// The rest of a header, behind its shape.
fn take_numbers(
    alloc: Global,
    format: u8,
    generation: u64,
    shape: Shape,
    bytes: &[u8],
) -> Result<(Header, &[u8]), TakeErr>
    ensures { TakesAs header_of result (take_numbers format generation shape bytes.now) }
{
    let (boot, rest) = take_u64(bytes)?;
    let (decisions, rest) = take_u64(rest)?;
    take_lists(alloc, format, generation, shape, boot, decisions, rest)
}

/// The rest of a header, behind its generation.
fn take_shape(
    alloc: Global,
    format: u8,
    generation: u64,
    bytes: &[u8],
) -> Result<(Header, &[u8]), TakeErr>
    ensures { TakesAs header_of result (take_shape format generation bytes.now) }
{
    let (parts, rest) = take_byte(bytes)?;
    if parts < 1 || 8 < parts {
        return Err(TakeErr::Misspelled);
    }
    let (kind, rest) = take_kind(rest)?;
    take_numbers(alloc, format, generation, Shape { parts, kind }, rest)
}

fn take_header(alloc: Global, bytes: &[u8]) -> Result<(Header, &[u8]), TakeErr>
    ensures { TakesAs header_of result (take_header bytes.now) }
{
    let (_mark, rest) = take_mark(bytes)?;
    let (format, rest) = take_byte(rest)?;
    if format < 1 || 3 < format {
        return Err(TakeErr::Misspelled);
    }
    let (generation, rest) = take_u64(rest)?;
    if generation < 1 {
        return Err(TakeErr::Misspelled);
    }
    take_shape(alloc, format, generation, rest)
}

/// The header that these bytes are; `None` exactly where they are the spelling of none.
pub fn read_header(alloc: Global, bytes: &[u8]) -> Result<Option<Header>, AllocError>
    ensures found { IfOk result (λ found. option_map header_of found ≡ header_in bytes.now) }
    ensures parts { IfOk result (λ found. IfSome found (λ h. is_number_of_parts h.shape.parts ≡ true)) }
{
    match take_header(alloc, bytes) {
        Ok((header, [])) => Ok(Some(header)),
        Ok((_header, [_, ..])) => Ok(None),
        Err(TakeErr::Misspelled) => Ok(None),
        Err(TakeErr::Memory) => Err(AllocError),
    }
}
