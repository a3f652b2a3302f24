//! Where a row stands.

ghost use Rattle.salt_model.specs.Bounds.{before_table, first_place};
ghost use Rattle.salt_model.specs.Tables.{place_cmp, place_total};
ghost use Rattle.std.specs.Cmp.{eq_by_cmp_equiv, partial_equiv_from_equiv, partial_order_from_total};
ghost use Rattle.std.specs.Ordering.{as_partial_cmp, eq_by_cmp};
ghost use Rattle.std.specs.Prelude.{IfOk, refl, ◌≡◌};

use salt_values::{Key, TryCopy, Value};
use std::alloc::{AllocError, Global};
use std::cmp::Ordering;
use std::ops::Bound;

/// The place of a row: its table's number and its key. Places are ordered by table, then by key.
#[derive(Debug, Drop)]
pub struct Place {
    pub table: u16,
    pub key: Key,
}

impl PartialEq for Place {
    ghost eq = { eq_by_cmp place_cmp };

    ghost laws = { partial_equiv_from_equiv (eq_by_cmp_equiv place_total) };

    fn eq(&self, other: &Place) -> bool {
        self.cmp(other).is_eq()
    }
}

impl Eq for Place {
    ghost laws = { eq_by_cmp_equiv place_total };
}

impl PartialOrd for Place {
    ghost partial_cmp = { as_partial_cmp place_cmp };

    ghost laws = { partial_order_from_total place_total };

    fn partial_cmp(&self, other: &Place) -> Option<Ordering> {
        Some(self.cmp(other))
    }
}

impl Ord for Place {
    ghost cmp = { place_cmp };

    ghost total = { place_total };

    ghost matches_partial_cmp = { λ a b. refl };

    ghost matches_eq = { λ a b. refl };

    fn cmp(&self, other: &Place) -> Ordering {
        // keys are only compared within a table, which costs a search less than to compare both and choose
        match self.table.cmp(&other.table) {
            Ordering::Less => Ordering::Less,
            Ordering::Equal => self.key.cmp(&other.key),
            Ordering::Greater => Ordering::Greater,
        }
    }
}

/// Behind the places of the tables before this one. No key is above NULL.
fn before_table(table: u16) -> Bound<Place>
    ensures { result ≡ before_table table }
{
    if table == 0 {
        Bound::Unbounded
    } else {
        Bound::Excluded(Place {
            table: table - 1,
            key: Value::Null,
        })
    }
}

/// Where the places of a table begin, from the lower end of a range on.
pub fn first_place(alloc: Global, table: u16, lo: &Option<Key>) -> Result<Bound<Place>, AllocError>
    ensures { IfOk result (λ start. start ≡ first_place table lo.now) }
{
    match lo {
        Some(lo) => {
            let key = lo.copy(alloc)?;
            Ok(Bound::Included(Place { table, key }))
        }
        None => Ok(before_table(table)),
    }
}
