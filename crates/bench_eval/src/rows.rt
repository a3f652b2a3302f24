//! The rows that a filter goes over.

use salt_ast::{ColType, Field};
use salt_values::{Row, Text, Value};
use sqlite_items::Items;
use std::alloc::{AllocError, Global};

/// A value of a column in the row of a number: each tenth is NULL where the column may hold it.
fn value_of(alloc: Global, column: &Field, number: u32) -> Result<Value, AllocError> {
    if column.nullable && number % 10 == 0 {
        return Ok(Value::Null);
    }
    match column.kind {
        ColType::Int => Ok(Value::Int(i64::from(number))),
        ColType::Text => {
            let text = format!(in alloc; "item {number}")?;
            match Text::new(alloc, text.as_bytes()) {
                Ok(text) => Ok(Value::Text(text)),
                Err(_) => Err(AllocError),
            }
        }
    }
}

/// So many rows of these columns.
pub fn made(alloc: Global, columns: &[Field], many: u32) -> Result<Vec<Row>, AllocError> {
    let mut rows = Vec::new(alloc);
    for number in 0..many {
        let mut row = Items::new(alloc);
        for column in columns {
            row.push(value_of(alloc, column, number)?)?;
        }
        rows.push(row)?;
    }
    Ok(rows)
}
