//! The rows that commits have made.

ghost use Rattle.law_states.specs.Overlays.{AreInOrder, edits_of};
ghost use Rattle.salt_units.specs.Acting.{HaveTheirKeys};
ghost use Rattle.std.specs.Prelude.{◌≡◌};

use crate::again::{Again, do_again};
use law_states::edits_make_the_tables;
use salt_ast::{Shared, Statement};
use salt_eval::{MapView, Tables, ViewErr};
use salt_model::Vars;
use salt_schema::Schema;
use salt_units::{Cursor, Overlay, put_changes, rows_stay_at_their_keys};
use salt_values::Change;
use sqlite_items::Items;
use std::alloc::{AllocError, Global};
use std::collections::{BTreeMap, VecDeque};

/// The rows that commits have made: what they changed of no rows, one a place, in order of their places. Each row that a change
/// puts has the change's key.
#[derive(Drop)]
pub struct Rows {
    pub changes: VecDeque<Change>,
    ghost in_order: { AreInOrder (edits_of changes.items) },
    ghost have_keys: { HaveTheirKeys (edits_of changes.items) },
}

impl Rows {
    ghost use Rattle.law_states.specs.Overlays.{with_edits};
    ghost use Rattle.salt_model.specs.Statements.{serial};
    ghost use Rattle.salt_model.specs.Tables.{no_rows};
    ghost use Rattle.salt_verdict.specs.Again.{GivesOutcome};
    ghost use Rattle.salt_verdict.specs.Made.{tables_made};
    ghost use Rattle.std.specs.Prelude.{IfOk, OnOk};

    /// No rows.
    pub fn none(alloc: Global) -> Rows
        ensures { tables_made result ≡ no_rows }
    {
        Rows {
            changes: VecDeque::new(alloc),
        }
    }

    /// Makes the changes of a unit that commits, in their order. An `AllocError` leaves the rows as they were.
    pub fn commit(&mut self, alloc: Global, changes: VecDeque<Change>) -> Result<(), AllocError>
        requires { HaveTheirKeys (edits_of changes.items) }
        ensures { OnOk result (tables_made self.new ≡ with_edits (edits_of changes.items) (tables_made self.old)) }
    {
        rows_stay_at_their_keys();
        edits_make_the_tables();
        put_changes(
            alloc,
            &mut self.changes,
            Items::from_vec(changes.into_vec()),
        )
    }

    /// What doing statements again on these rows gives.
    pub fn do_again(
        &self,
        alloc: Global,
        schema: &Schema,
        vars: Vars,
        done: &[Shared<Statement>],
    ) -> Result<Again, ViewErr>
        ensures { IfOk result (λ again. GivesOutcome again (serial schema.now (tables_made self.now) vars done.now)) }
    {
        rows_stay_at_their_keys();
        let none: Tables = BTreeMap::new(alloc);
        let mut view = MapView::new(alloc, &none);
        let mut overlay = Overlay {
            alloc,
            view: &mut view,
            changes: &self.changes,
            cursor: Cursor::new(),
        };
        do_again(alloc, schema, &mut overlay, vars, done)
    }
}
