//! Continuations, taken from the front of bytes under the format of the coordinator's header that they stand behind.

ghost use Rattle.salt_bytes.specs.Conts.{take_cont};
ghost use Rattle.salt_bytes.specs.Numbers.{take_counted};
ghost use Rattle.salt_bytes.specs.Taking.{take_each};
ghost use Rattle.salt_codec.specs.Taking.{TakesSame};

use salt_codec::take::take_u64;
use salt_codec::{TakeErr, take_cont};
use salt_values::Conts;
use sqlite_items::Items;
use std::alloc::Global;

/// So many continuations, one behind the other.
fn take_each_cont(
    alloc: Global,
    format: u8,
    count: u64,
    bytes: &[u8],
) -> Result<(Conts, &[u8]), TakeErr>
    ensures { TakesSame result (take_each (take_cont format) count bytes.now) }
{
    let mut conts = Items::new(alloc);
    let mut rest = bytes;
    for _taken in 0..count {
        let (cont, behind) = take_cont(alloc, format, rest)?;
        conts.push(cont)?;
        rest = behind;
    }
    Ok((conts, rest))
}

/// Continuations, behind their number.
pub fn take_conts(alloc: Global, format: u8, bytes: &[u8]) -> Result<(Conts, &[u8]), TakeErr>
    ensures { TakesSame result (take_counted (take_cont format) bytes.now) }
{
    let (count, rest) = take_u64(bytes)?;
    take_each_cont(alloc, format, count, rest)
}
