//! The view of tables under a unit's changes.

ghost use Rattle.std.specs.Borrow.{GName};
ghost use Rattle.std.specs.Option.{ForSome, option_copied};
ghost use Rattle.std.specs.Prelude.{◌≡◌, ◌≤◌, ◌<◌, ◌+◌, [], IfOk, None, OnOk, Some, false, length, slice_get};
ghost use Rattle.law_states.specs.Overlays.{AreInOrder, edits_of, with_edits};
ghost use Rattle.salt_eval.specs.Views.{CountsFaults};
ghost use Rattle.salt_model.specs.Tables.{Tables, row_at};
ghost use Rattle.salt_model.specs.declared.places.Place.{Place};
ghost use Rattle.salt_units.specs.Acting.{HaveTheirKeys};
ghost use Rattle.salt_units.specs.Merging.{put_at, waiting_cmp};
ghost use Rattle.salt_values.specs.Value.{key_of};

use crate::edits::{count_passed, count_within, key_cmp, place_of};
use salt_eval::{RowView, ViewErr};
use salt_exprs::{Cells, Operand, in_column};
use salt_ranges::KeyRange;
use salt_values::{Change, Key, Row, TryCopy};
use std::alloc::{AllocError, Global};
use std::cmp::Ordering;
use std::collections::VecDeque;

/// Where an overlay stands, and which changes are still to come of a range.
#[derive(Clone, Copy, Debug)]
pub struct Cursor {
    /// It stands at the row that this change puts; at that of the view where there is none.
    pub at: Option<usize>,
    /// The changes from here on are still to come,
    pub next: usize,
    /// up to here.
    pub end: usize,
    /// Whether the view stands at a row that is still to come.
    pub waits: bool,
}

impl Cursor {
    /// Nothing is to come.
    pub fn new() -> Cursor
        ensures { result ≡ record { at = None; next = 0; end = 0; waits = false } }
    {
        Cursor {
            at: None,
            next: 0,
            end: 0,
            waits: false,
        }
    }

    /// It stands at its next change, which is not to come any more.
    fn passed(self, waits: bool) -> Cursor
        requires { self.next < self.end }
        ensures { result ≡ record { at = Some self.next; next = self.next + 1; end = self.end; waits = waits } }
    {
        Cursor {
            at: Some(self.next),
            next: self.next + 1,
            end: self.end,
            waits,
        }
    }
}

/// Shows the rows of a view with changes made in them. The changes are in order of their places, one a place; each row of the view, and
/// each that a change puts, stands at the place of its key. It has the faults of the view.
#[derive(Drop)]
pub struct Overlay<'a, 'b, V: RowView> {
    pub alloc: Global,
    pub view: &'a mut V,
    pub changes: &'b VecDeque<Change>,
    pub cursor: Cursor,
    ghost in_order: { AreInOrder (edits_of changes.now.items) },
    ghost have_keys: { HaveTheirKeys (edits_of changes.now.items) },
    ghost within: { cursor.end ≤ length changes.now.items },
    ghost keyed: { (p : Place) → ForSome (row_at p (V.tables view.now)) (λ row. key_of row ≡ p.key) },
}

/// The row that a change puts.
fn row_put(changes: &VecDeque<Change>, at: Option<usize>) -> Option<&Row>
    ensures { option_copied result ≡ put_at changes.now.items at }
{
    match changes.get(at?) {
        Some(change) => change.row.as_ref(),
        None => None,
    }
}

/// The change of this number.
fn change_ahead(changes: &VecDeque<Change>, next: usize) -> &Change
    requires { next < length changes.now.items }
    ensures { slice_get changes.now.items next ≡ Some result.now }
{
    &changes[next]
}

impl<'a, 'b, V: RowView> Cells for Overlay<'a, 'b, V> {
    ghost use Rattle.salt_units.specs.Merging.{shown_at};

    ghost cells = { λ o. shown_at (put_at o.changes.now.items o.cursor.at) (V.cells o.view.now) };

    fn operand<'r>(&'r self, alloc: Global, number: usize) -> Result<Operand<'r>, AllocError> {
        match row_put(self.changes, self.cursor.at) {
            Some(row) => Ok(in_column(row.as_slice(), number)),
            None => self.view.operand(alloc, number),
        }
    }

    fn row(&self, alloc: Global) -> Result<Row, AllocError> {
        match row_put(self.changes, self.cursor.at) {
            Some(row) => row.copy(alloc),
            None => self.view.row(alloc),
        }
    }
}

/// The row of a view against a key, where it waits; else what is behind all keys.
fn waiting_cmp<V: RowView>(
    alloc: Global,
    view: &V,
    waits: bool,
    key: &Key,
) -> Result<Ordering, AllocError>
    ensures { IfOk result (λ order. order ≡ waiting_cmp waits (V.cells view.now) key.now) }
{
    if waits {
        key_cmp(alloc, view, key)
    } else {
        Ok(Ordering::Greater)
    }
}

impl<'a, 'b, V: RowView> Overlay<'a, 'b, V> {
    ghost use Rattle.salt_units.specs.Merging.{changes_ahead, either, merged, rows_ahead, shown_at};

    /// Sees to it that the view stands at the first of its rows that are still to come, if there is one.
    fn look_below(&mut self) -> Result<(), ViewErr>
        ensures rows { OnOk result (rows_ahead self.new.cursor.waits (V.cells self.new.view.now) (V.coming self.new.view.now) ≡ rows_ahead self.old.cursor.waits (V.cells self.old.view.now) (V.coming self.old.view.now)) }
        ensures none { OnOk result (self.new.cursor.waits ≡ false → V.coming self.new.view.now ≡ []) }
        ensures cursor { self.new.cursor ≡ record self.old.cursor { waits = self.new.cursor.waits } }
        ensures changes { self.new.changes ≡ self.old.changes }
        ensures reference { self.new.view.ghost_name ≡ self.old.view.ghost_name }
        ensures kept { V.tables self.new.view.now ≡ V.tables self.old.view.now }
        ensures source { V.shown_from self.new.view.now ≡ V.shown_from self.old.view.now }
        ensures faults { CountsFaults (V.faults self.old.view.now) (V.faults self.new.view.now) result }
    {
        let waits = self.cursor.waits;
        if waits {
            return Ok(());
        }
        let more = self.view.step()?;
        self.cursor.waits = more;
        Ok(())
    }

    /// Goes over the first change still to come, or over a row of the view before it. Whether it stands at a row then: else the change
    /// removes one.
    fn pass(&mut self) -> Result<bool, ViewErr>
        requires { self.old.cursor.next < self.old.cursor.end }
        ensures rows { IfOk result (λ stands.
            merged (changes_ahead self.old.cursor.next self.old.cursor.end self.old.changes.now.items) (rows_ahead self.old.cursor.waits (V.cells self.old.view.now) (V.coming self.old.view.now))
            ≡ either stands (shown_at (put_at self.new.changes.now.items self.new.cursor.at) (V.cells self.new.view.now))
            (merged (changes_ahead self.new.cursor.next self.new.cursor.end self.new.changes.now.items) (rows_ahead self.new.cursor.waits (V.cells self.new.view.now) (V.coming self.new.view.now)))) }
        ensures passed { IfOk result (λ stands. stands ≡ false → self.new.cursor.next ≡ self.old.cursor.next + 1) }
        ensures end { self.new.cursor.end ≡ self.old.cursor.end }
        ensures changes { self.new.changes ≡ self.old.changes }
        ensures reference { self.new.view.ghost_name ≡ self.old.view.ghost_name }
        ensures kept { V.tables self.new.view.now ≡ V.tables self.old.view.now }
        ensures source { V.shown_from self.new.view.now ≡ V.shown_from self.old.view.now }
        ensures faults { CountsFaults (V.faults self.old.view.now) (V.faults self.new.view.now) result }
    {
        self.look_below()?;
        let changes = self.changes;
        let next = self.cursor.next;
        let change = change_ahead(changes, next);
        let is_put = change.row.is_some();
        match waiting_cmp(self.alloc, &*self.view, self.cursor.waits, &change.key)? {
            Ordering::Less => {
                self.cursor.at = None;
                self.cursor.waits = false;
                Ok(true)
            }
            Ordering::Equal => {
                self.cursor = self.cursor.passed(false);
                Ok(is_put)
            }
            Ordering::Greater => {
                self.cursor = self.cursor.passed(self.cursor.waits);
                Ok(is_put)
            }
        }
    }
}

impl<'a, 'b, V: RowView> RowView for Overlay<'a, 'b, V> {
    ghost use Rattle.salt_units.specs.Merging.{changes_ahead, merged, rows_ahead};

    ghost tables = { λ o. with_edits (edits_of o.changes.now.items) (V.tables o.view.now) };

    ghost Source = { GName × Tables × V.Source };

    ghost shown_from = { λ o. (o.view.ghost_name, V.tables o.view.now, V.shown_from o.view.now) };

    ghost faults = { λ o. V.faults o.view.now };

    ghost coming = { λ o. merged (changes_ahead o.cursor.next o.cursor.end o.changes.now.items) (rows_ahead o.cursor.waits (V.cells o.view.now) (V.coming o.view.now)) };

    fn find(&mut self, table: u16, key: &Key) -> Result<bool, ViewErr> {
        self.cursor.at = place_of(self.changes, table, key);
        match self.cursor.at {
            Some(_) => Ok(row_put(self.changes, self.cursor.at).is_some()),
            None => self.view.find(table, key),
        }
    }

    fn start(&mut self, table: u16, range: &KeyRange) -> Result<(), ViewErr> {
        self.view.start(table, range)?;
        self.cursor = Cursor {
            at: None,
            next: count_passed(self.changes, table, range),
            end: count_within(self.changes, table, range),
            waits: false,
        };
        Ok(())
    }

    fn step(&mut self) -> Result<bool, ViewErr> {
        'changes: while self.cursor.next < self.cursor.end {
            let stands = self.pass()?;
            if stands {
                return Ok(true);
            }
        }
        self.look_below()?;
        self.cursor.at = None;
        let waits = self.cursor.waits;
        self.cursor.waits = false;
        Ok(waits)
    }
}
