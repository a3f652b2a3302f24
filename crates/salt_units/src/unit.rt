//! An open unit.

ghost use Rattle.std.specs.Cow.{cow_slice_items};
ghost use Rattle.std.specs.Prelude.{◌≡◌, [], IfOk, OnErr, true};
ghost use Rattle.salt_eval.specs.Scans.{IsKeyed};
ghost use Rattle.salt_eval.specs.Views.{CountsFaults};
ghost use Rattle.law_states.specs.Overlays.{AreInOrder, edits_of, with_edits};
ghost use Rattle.salt_model.specs.Reaches.{reach};
ghost use Rattle.salt_model.specs.Statements.{outcome_of};
ghost use Rattle.salt_units.specs.Acting.{HasDone, HaveTheirKeys, leaves_keys};

use crate::acting::execute_under;
use crate::edits::in_one_piece;
use crate::putting::put_changes;
use crate::storing::{store, stored_by};
use salt_ast::Statement;
use salt_eval::{RowView, ViewErr, reach};
use salt_model::{Answer, Reach, Vars};
use salt_schema::Schema;
use salt_values::{Change, Id};
use std::alloc::{AllocError, Global};
use std::borrow::CowSlice;
use std::collections::VecDeque;

/// A unit that runs or waits: its name, its variables, and its changes, one a place, in order of their places. Each row that
/// a change puts has the change's key.
#[derive(Drop)]
pub struct OpenUnit {
    pub unit: Id,
    pub vars: Vars,
    pub changes: VecDeque<Change>,
    ghost in_order: { AreInOrder (edits_of changes.items) },
    ghost have_keys: { HaveTheirKeys (edits_of changes.items) },
}

impl OpenUnit {
    /// A unit with these variables, which has changed nothing.
    pub fn new(alloc: Global, unit: Id, vars: Vars) -> OpenUnit
        ensures unit { result.unit ≡ unit }
        ensures vars { result.vars ≡ vars }
        ensures changes { result.changes.items ≡ [] }
    {
        OpenUnit {
            unit,
            vars,
            changes: VecDeque::new(alloc),
        }
    }

    /// Its name.
    pub fn unit(&self) -> Id
        ensures { result ≡ self.now.unit }
    {
        self.unit
    }

    /// Its variables.
    pub fn vars(&self) -> &Vars
        ensures { result.now ≡ self.now.vars }
    {
        &self.vars
    }

    /// Its changes, one a place, in order of their places.
    pub fn changes(&self) -> &VecDeque<Change>
        ensures changes { result.now.items ≡ self.now.changes.items }
        ensures in_order { AreInOrder (edits_of result.now.items) }
        ensures have_keys { HaveTheirKeys (edits_of result.now.items) }
    {
        &self.changes
    }

    /// Its changes, lent where they stand in one piece.
    pub fn lent_changes(&self, alloc: Global) -> Result<CowSlice<'_, Change, Global>, AllocError>
        ensures { IfOk result (λ lent. cow_slice_items lent ≡ self.now.changes.items) }
    {
        in_one_piece(alloc, &self.changes)
    }

    /// Its changes, one a place, in order of their places.
    pub fn into_changes(self) -> VecDeque<Change>
        ensures changes { result.items ≡ self.changes.items }
        ensures in_order { AreInOrder (edits_of result.items) }
        ensures have_keys { HaveTheirKeys (edits_of result.items) }
    {
        self.changes
    }

    /// What a statement reaches under its variables.
    pub fn ask(
        &self,
        alloc: Global,
        schema: &Schema,
        statement: &Statement,
    ) -> Result<Option<Reach>, AllocError>
        ensures { IfOk result (λ found. found ≡ reach schema.now self.now.vars statement.now) }
    {
        reach(alloc, schema, &self.vars, statement)
    }

    /// Does a statement over the rows that a view shows, under the unit's changes: what the statement changes is put into them, and
    /// a variable that it stores is set. A statement that fails answers its cause, and does neither. Each row of the view has to
    /// stand at the place of its key, and no set may be of a key column. `Fault` where the view counted one; an error leaves
    /// the unit as it was.
    pub fn act<V: RowView>(
        &mut self,
        alloc: Global,
        view: &mut V,
        schema: &Schema,
        statement: &Statement,
    ) -> Result<Answer, ViewErr>
        requires keyed { IsKeyed (V.tables view.old) }
        requires leaves_keys { leaves_keys schema.now statement.now ≡ true }
        ensures done { IfOk result (λ answer. HasDone (outcome_of schema.now (with_edits (edits_of self.old.changes.items) (V.tables view.old)) self.old.vars statement.now) answer (edits_of self.old.changes.items) (edits_of self.new.changes.items) self.new.vars) }
        ensures unit { self.new.unit ≡ self.old.unit }
        ensures same_changes { OnErr result (self.new.changes.items ≡ self.old.changes.items) }
        ensures same_vars { OnErr result (self.new.vars ≡ self.old.vars) }
        ensures kept { V.tables view.new ≡ V.tables view.old }
        ensures source { V.shown_from view.new ≡ V.shown_from view.old }
        ensures faults { CountsFaults (V.faults view.old) (V.faults view.new) result }
    {
        let changes = &self.changes;
        let (answer, changes) = execute_under(alloc, view, changes, schema, &self.vars, statement)?;
        let stored = stored_by(alloc, statement, &answer)?;
        put_changes(alloc, &mut self.changes, changes)?;
        store(&mut self.vars, stored);
        Ok(answer)
    }
}
