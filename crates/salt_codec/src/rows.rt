//! Rows as bytes.

ghost use Rattle.salt_bytes.specs.Values.{is_row_length, take_row, spell_values};
ghost use Rattle.salt_codec.specs.Taking.{IsRowAtFront};
ghost use Rattle.salt_codec.specs.declared.error.RowErr.TheVariants.{NotRow};
ghost use Rattle.std.specs.Prelude.{Err, IfOk, None, if◌then◌else◌, is_ok, length, true, ◌++◌, ◌≡◌};

use crate::error::{RowErr, TakeErr};
use crate::put::with_row;
use crate::take::take_row_from;
use salt_values::Row;
use std::alloc::{AllocError, Global};

/// Appends the spelling of a row, which has 1 to 16 values: their number, and then each. Where memory runs out nothing is appended.
pub fn put_row(out: &mut Vec<u8>, row: &Row) -> Result<(), AllocError>
    requires { is_row_length (length row.now) ≡ true }
    ensures { out.new.items ≡ (if is_ok result then out.old.items ++ spell_values row.now else out.old.items) }
{
    let spelled = with_row(Vec::new(*out.allocator()), row.as_slice())?;
    out.extend_from_slice(&spelled)
}

/// The row that is spelled at the front of bytes, and how many bytes it takes. Where `nulls` is false no NULL is spelled.
/// `NotRow` exactly where no row is spelled there; else `Memory` where memory runs out.
pub fn take_row(alloc: Global, nulls: bool, bytes: &[u8]) -> Result<(Row, usize), RowErr>
    ensures row { IfOk result (λ found. IsRowAtFront nulls bytes.now found.0 found.1) }
    ensures not_row { result ≡ Err NotRow → take_row nulls bytes.now ≡ None }
{
    match take_row_from(alloc, nulls, bytes) {
        Ok((row, rest)) => Ok((row, bytes.len() - rest.len())),
        Err(TakeErr::Misspelled) => Err(RowErr::NotRow),
        Err(TakeErr::Memory) => Err(RowErr::Memory),
    }
}
