//! The entries of a coordinator's log behind its header, taken from their bytes.

ghost use Rattle.salt_bytes.specs.Coordinator.{entry_in, take_decision, take_entry};
ghost use Rattle.salt_decisions.specs.Entry.{decision_of, entry_of};
ghost use Rattle.salt_codec.specs.Taking.{TakesAs};
ghost use Rattle.std.specs.Prelude.{IfOk, nat_lt, option_map, ◌<◌, ◌^◌, ◌≡◌, ◌≤◌};

use crate::header::{Definition, take_definition, take_text};
use salt_codec::TakeErr;
use salt_codec::take::{take_byte, take_id, take_u64};
use salt_values::{Bytes, Id};
use std::alloc::{AllocError, Global};

/// A unit is decided.
#[derive(Drop)]
pub struct Decided {
    pub number: u64,
    pub unit: Id,
    /// Bit p is set where partition p has a prepared entry of the unit.
    pub parts: u8,
    /// What the unit does to the continuations, as it is spelled.
    pub mv: Bytes,
}

/// An entry behind the header.
#[derive(Drop)]
pub enum Entry {
    /// The boot of this number.
    Boots(u64),
    Defines(Definition),
    Decides(Decided),
}

/// Whether no bit of a mask is at or above the parts, of which there are at most 8.
fn are_bits(mask: u8, parts: u8) -> bool
    requires { parts ≤ 8 }
    ensures { result ≡ nat_lt mask (2 ^ parts) }
{
    u16::from(mask) < 1 << parts
}

fn take_decision(alloc: Global, parts: u8, bytes: &[u8]) -> Result<(Decided, &[u8]), TakeErr>
    requires { parts ≤ 8 }
    ensures { TakesAs decision_of result (take_decision parts bytes.now) }
{
    let (number, rest) = take_u64(bytes)?;
    let (unit, rest) = take_id(rest)?;
    let (mask, rest) = take_byte(rest)?;
    if !are_bits(mask, parts) {
        return Err(TakeErr::Misspelled);
    }
    let (mv, rest) = take_text(alloc, rest)?;
    let decided = Decided {
        number,
        unit,
        parts: mask,
        mv,
    };
    Ok((decided, rest))
}

fn take_entry(alloc: Global, parts: u8, bytes: &[u8]) -> Result<(Entry, &[u8]), TakeErr>
    requires { parts ≤ 8 }
    ensures { TakesAs entry_of result (take_entry parts bytes.now) }
{
    let (kind, rest) = take_byte(bytes)?;
    match kind {
        1 => {
            let (boot, rest) = take_u64(rest)?;
            Ok((Entry::Boots(boot), rest))
        }
        2 => {
            let (definition, rest) = take_definition(alloc, rest)?;
            Ok((Entry::Defines(definition), rest))
        }
        3 => {
            let (decided, rest) = take_decision(alloc, parts, rest)?;
            Ok((Entry::Decides(decided), rest))
        }
        _ => Err(TakeErr::Misspelled),
    }
}

/// The entry that these bytes are, of a log of so many parts, at most 8; `None` exactly where they are the spelling of none.
pub fn read_entry(alloc: Global, parts: u8, bytes: &[u8]) -> Result<Option<Entry>, AllocError>
    requires { parts ≤ 8 }
    ensures { IfOk result (λ found. option_map entry_of found ≡ entry_in parts bytes.now) }
{
    match take_entry(alloc, parts, bytes) {
        Ok((entry, [])) => Ok(Some(entry)),
        Ok((_entry, [_, ..])) => Ok(None),
        Err(TakeErr::Misspelled) => Ok(None),
        Err(TakeErr::Memory) => Err(AllocError),
    }
}
