//! The rows of a range that are still to come of a map.

ghost use Rattle.std.proofs.Props.{props};
ghost use Rattle.std.specs.Option.{option_copied};
ghost use Rattle.std.specs.Prelude.{IfOk, MatchOption, [], ◌∷◌, ◌≡◌};
ghost use Rattle.std.specs.BTreeMap.Range.{entries_between};
ghost use Rattle.std.specs.List.Sorted.{IsStrictlySortedBy};
ghost use Rattle.std.specs.Map.{keys_of};
ghost use Rattle.std.specs.declared.ops.Bound.TheVariants.{Unbounded};
ghost use Rattle.salt_eval.specs.Comings.{AreComing};
ghost use Rattle.salt_model.specs.Tables.{place_cmp};

use crate::map_view::Tables;
use salt_model::{Place, first_place};
use salt_ranges::KeyRange;
use salt_values::{Row, TryCopy};
use std::alloc::{AllocError, Global};
use std::collections::btree_map::Range;
use std::ops::Bound;

/// The entries of a map from the lower end of a range on, of which those in the range come first.
#[derive(Drop)]
pub struct Coming<'a> {
    table: u16,
    range: KeyRange,
    entries: Range<'a, Place, Row>,
    ghost in_order: { AreComing table range entries } by { Prim.hlevel props },
}

/// The first of entries, and those behind it are left.
fn next_entry<'a>(entries: &mut Range<'a, Place, Row>) -> Option<(&'a Place, &'a Row)>
    ensures { MatchOption result ((entries.old ≡ []) × (entries.new ≡ [])) (λ e. entries.old ≡ (e.0.now, e.1.now) ∷ entries.new) }
{
    entries.next()
}

impl<'a> Coming<'a> {
    ghost use Rattle.salt_eval.specs.MapViews.{coming_in};
    ghost use Rattle.salt_eval.specs.Views.{range_rows, tables_of};

    /// The first row in the range; none where its entries are behind the range.
    pub fn next(&mut self) -> Option<&'a Row>
        ensures { MatchOption (option_copied result) ((coming_in self.old ≡ []) × (coming_in self.new ≡ [])) (λ row. coming_in self.old ≡ row ∷ coming_in self.new) }
    {
        let Some((place, row)) = next_entry(&mut self.entries) else {
            return None;
        };
        if place.table == self.table && self.range.has(&place.key) {
            Some(row)
        } else {
            None
        }
    }

    /// The rows of a range of a map.
    pub fn of(
        alloc: Global,
        rows: &'a Tables,
        table: u16,
        range: &KeyRange,
    ) -> Result<Coming<'a>, AllocError>
        ensures { IfOk result (λ coming. coming_in coming ≡ range_rows table range.now (tables_of rows.now.entries)) }
    {
        let start = first_place(alloc, table, &range.lo)?;
        let range = KeyRange {
            lo: range.lo.copy(alloc)?,
            hi: range.hi.copy(alloc)?,
        };
        Ok(Coming {
            table,
            range,
            entries: entries_from(rows, start),
        })
    }
}

/// The entries of a map from there on.
fn entries_from<'a>(rows: &'a Tables, start: Bound<Place>) -> Range<'a, Place, Row>
    ensures entries { result ≡ entries_between place_cmp start Unbounded rows.now.entries }
    ensures in_order { IsStrictlySortedBy place_cmp (keys_of rows.now.entries) }
{
    rows.range((start, Bound::Unbounded))
}
