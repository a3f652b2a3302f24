//! Where the places of a range of keys end.

ghost use Rattle.salt_deps.specs.Ends.{last_place};
ghost use Rattle.std.specs.Prelude.{◌≡◌, IfOk};

use salt_model::Place;
use salt_values::{Key, TryCopy, Value};
use std::alloc::{AllocError, Global};
use std::ops::Bound;

/// Up to the upper end of a range.
pub fn last_place(alloc: Global, table: u16, hi: &Option<Key>) -> Result<Bound<Place>, AllocError>
    ensures { IfOk result (λ end. end ≡ last_place table hi.now) }
{
    let key = match hi {
        Some(hi) => hi.copy(alloc)?,
        None => Value::Null,
    };
    Ok(Bound::Included(Place { table, key }))
}
