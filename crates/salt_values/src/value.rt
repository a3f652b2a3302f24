//! Values and rows.

ghost use Rattle.std.specs.Prelude.{◌≡◌, IfOk};
ghost use Rattle.std.specs.Cmp.{eq_by_cmp_equiv, partial_equiv_from_equiv, partial_order_from_total};
ghost use Rattle.std.specs.Ordering.{as_partial_cmp, eq_by_cmp};
ghost use Rattle.std.specs.Prelude.{refl};
ghost use Rattle.salt_values.specs.Value.{IsValue, value_cmp, value_total};

use crate::copy::TryCopy;
use crate::text::Text;
use sqlite_items::Items;
use std::alloc::{AllocError, Global};
use std::cmp::Ordering;

/// Bytes that are kept, as a text that was printed.
pub type Bytes = Items<u8>;

/// The bytes of a name.
pub type Name = Items<u8>;

/// Names, in the order of the text.
pub type Names = Items<Name>;

/// A number, a text, or NULL. Numbers are ordered as numbers, texts by their bytes; a number stands before a text, and NULL
/// behind both.
#[derive(Debug, Drop)]
pub enum Value {
    Int(i64),
    Text(Text),
    Null,
}

/// A row's key is its first value, which is never NULL.
pub type Key = Value;

/// A row: a value for each column, the key first.
pub type Row = Items<Value>;

/// Rows, in order of their keys.
pub type Rows = Items<Row>;

impl Value {
    /// Each value in hand is a number of 64 bits, at most 255 bytes from 32 to 126, or NULL.
    pub fn told(&self)
        ensures { IsValue self.now }
    {
        match self {
            Value::Int(number) => {
                let _number = *number;
            }
            Value::Text(text) => {
                let _bytes = text.as_bytes();
            }
            Value::Null => {}
        }
    }
}

impl TryCopy for Value {
    fn copy(&self, alloc: Global) -> Result<Value, AllocError> {
        match self {
            Value::Int(number) => Ok(Value::Int(*number)),
            Value::Text(text) => Ok(Value::Text(text.copy(alloc)?)),
            Value::Null => Ok(Value::Null),
        }
    }
}

impl PartialEq for Value {
    ghost eq = { eq_by_cmp value_cmp };

    ghost laws = { partial_equiv_from_equiv (eq_by_cmp_equiv value_total) };

    fn eq(&self, other: &Value) -> bool {
        self.cmp(other).is_eq()
    }
}

impl Eq for Value {
    ghost laws = { eq_by_cmp_equiv value_total };
}

impl PartialOrd for Value {
    ghost partial_cmp = { as_partial_cmp value_cmp };

    ghost laws = { partial_order_from_total value_total };

    fn partial_cmp(&self, other: &Value) -> Option<Ordering> {
        Some(self.cmp(other))
    }
}

impl Ord for Value {
    ghost cmp = { value_cmp };

    ghost total = { value_total };

    ghost matches_partial_cmp = { λ a b. refl };

    ghost matches_eq = { λ a b. refl };

    #[inline(always)]
    fn cmp(&self, other: &Value) -> Ordering {
        match (self, other) {
            (Value::Int(a), Value::Int(b)) => a.cmp(b),
            (Value::Text(a), Value::Text(b)) => a.as_bytes().cmp(b.as_bytes()),
            (Value::Null, Value::Null) => Ordering::Equal,
            (Value::Int(_), _) => Ordering::Less,
            (_, Value::Int(_)) => Ordering::Greater,
            (Value::Text(_), Value::Null) => Ordering::Less,
            (Value::Null, Value::Text(_)) => Ordering::Greater,
        }
    }
}
