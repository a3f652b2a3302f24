//! Bytes with a spelling appended. Each call takes the bytes and hands them back; they are given up where memory runs out.

ghost use Rattle.salt_bytes.specs.Coordinator.{spell_text};
ghost use Rattle.salt_bytes.specs.Ids.{spell_id};
ghost use Rattle.salt_bytes.specs.Numbers.{spell_16, spell_32, spell_64};
ghost use Rattle.salt_bytes.specs.Spellable.{AreSpellableValues, IsSpellableId, IsSpellableValue};
ghost use Rattle.salt_bytes.specs.Values.{is_row_length, spell_value, spell_values};
ghost use Rattle.std.specs.Int.{cast_unsigned, w64};
ghost use Rattle.std.specs.Prelude.{IfOk, OnOk, [], length, true, ◌++◌, ◌∷◌, ◌≡◌};
ghost use Rattle.std.specs.List.{flat_map};

use salt_values::{Id, Text, Value};
use std::alloc::AllocError;

/// These bytes.
pub fn with_bytes(mut out: Vec<u8>, bytes: &[u8]) -> Result<Vec<u8>, AllocError>
    ensures { IfOk result (λ made. made.items ≡ out.items ++ bytes.now) }
{
    out.extend_from_slice(bytes)?;
    Ok(out)
}

/// One byte.
pub fn with_byte(mut out: Vec<u8>, byte: u8) -> Result<Vec<u8>, AllocError>
    ensures { IfOk result (λ made. made.items ≡ out.items ++ byte ∷ []) }
{
    out.push(byte)?;
    Ok(out)
}

/// A number in two bytes.
pub fn with_u16(out: Vec<u8>, number: u16) -> Result<Vec<u8>, AllocError>
    ensures { IfOk result (λ made. made.items ≡ out.items ++ spell_16 number) }
{
    with_bytes(out, &number.to_be_bytes())
}

/// A number in four bytes.
pub fn with_u32(out: Vec<u8>, number: u32) -> Result<Vec<u8>, AllocError>
    ensures { IfOk result (λ made. made.items ≡ out.items ++ spell_32 number) }
{
    with_bytes(out, &number.to_be_bytes())
}

/// A number in eight bytes.
pub fn with_u64(out: Vec<u8>, number: u64) -> Result<Vec<u8>, AllocError>
    ensures { IfOk result (λ made. made.items ≡ out.items ++ spell_64 number) }
{
    with_bytes(out, &number.to_be_bytes())
}

/// A unit's or a program's name.
pub fn with_id(out: Vec<u8>, id: Id) -> Result<Vec<u8>, AllocError>
    ensures put { IfOk result (λ made. made.items ≡ out.items ++ spell_id id) }
    ensures spellable { IsSpellableId id }
{
    let out = with_u64(out, id.boot)?;
    with_u64(out, id.seq)
}

/// Bytes behind their length.
pub fn with_text(out: Vec<u8>, text: &[u8]) -> Result<Vec<u8>, AllocError>
    ensures { IfOk result (λ made. made.items ≡ out.items ++ spell_text text.now) }
{
    let out = with_u64(out, text.len() as u64)?;
    with_bytes(out, text)
}

/// A number, behind the byte of its kind.
fn with_int(out: Vec<u8>, number: i64) -> Result<Vec<u8>, AllocError>
    ensures { IfOk result (λ made. made.items ≡ out.items ++ 1 ∷ spell_64 (cast_unsigned w64 number)) }
{
    let out = with_byte(out, 1)?;
    with_u64(out, number.cast_unsigned())
}

/// A text, behind the byte of its kind and its length.
fn with_value_text(out: Vec<u8>, text: &Text) -> Result<Vec<u8>, AllocError>
    ensures { IfOk result (λ made. made.items ≡ out.items ++ 2 ∷ length text.now ∷ text.now) }
{
    let out = with_byte(out, 2)?;
    let out = with_byte(out, text.as_bytes().len() as u8)?;
    with_bytes(out, text.as_bytes())
}

/// A value.
pub fn with_value(out: Vec<u8>, value: &Value) -> Result<Vec<u8>, AllocError>
    ensures put { IfOk result (λ made. made.items ≡ out.items ++ spell_value value.now) }
    ensures spellable { IsSpellableValue true value.now }
{
    value.told();
    match value {
        Value::Int(number) => with_int(out, *number),
        Value::Text(text) => with_value_text(out, text),
        Value::Null => with_byte(out, 0),
    }
}

/// Values, one behind the other.
pub fn with_values(mut out: Vec<u8>, values: &[Value]) -> Result<Vec<u8>, AllocError>
    ensures put { IfOk result (λ made. made.items ≡ out.items ++ flat_map spell_value values.now) }
    ensures spellable { OnOk result (AreSpellableValues true values.now) }
{
    for value in values {
        out = with_value(out, value)?;
    }
    Ok(out)
}

/// A row, which has 1 to 16 values: their number, and then each.
pub fn with_row(out: Vec<u8>, row: &[Value]) -> Result<Vec<u8>, AllocError>
    requires { is_row_length (length row.now) ≡ true }
    ensures { IfOk result (λ made. made.items ≡ out.items ++ spell_values row.now) }
{
    let out = with_byte(out, row.len() as u8)?;
    with_values(out, row)
}
