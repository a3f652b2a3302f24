//! Rows as bytes.

use salt_codec::{put_row, take_row};
use salt_values::{Row, Text, Value};
use std::test::Fail;

/// 1 and 'ab'.
const ROW: [u8; 14] = [2, 1, 0, 0, 0, 0, 0, 0, 0, 1, 2, 2, 97, 98];

#[test]
fn a_row_is_put_and_taken(rt: HostRuntime) -> Result<(), Fail> {
    let mut row = Row::new(rt.alloc());
    row.push(Value::Int(1))?;
    row.push(Value::Text(Text::new(rt.alloc(), b"ab")?))?;
    let mut out = Vec::from_slice(rt.alloc(), &[7])?;
    put_row(&mut out, &row)?;
    assert_eq!(rt; &out[1..], &ROW[..]);
    out.push(9)?;
    let (taken, count) = take_row(rt.alloc(), true, &out[1..])?;
    assert_eq!(rt; taken.as_slice(), row.as_slice());
    assert_eq!(rt; count, 14);
    Ok(())
}
