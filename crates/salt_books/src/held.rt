//! Units that run or wait.

ghost use Rattle.salt_eval.specs.Scans.{IsKeyed};
ghost use Rattle.law_states.specs.OpenUnits.{count_on};
ghost use Rattle.salt_model.specs.Kept.{Kept, schema_of};
ghost use Rattle.salt_model.specs.Reaches.{reach};
ghost use Rattle.salt_model.specs.Units.{program_begun};
ghost use Rattle.salt_units.specs.Acting.{leaves_keys};
ghost use Rattle.salt_values.specs.Id.{is_same_id};
ghost use Rattle.std.specs.Prelude.{IfOk, if◌then◌else◌, is_some, nat_lt, true, ◌+◌, ◌≡◌};

use crate::kinds::program_begun;
use law_states::statements_are_done_under_edits;
use salt_ast::{Shared, Statement};
use salt_eval::ViewErr;
use salt_loaded::{Loaded, LoadedView};
use salt_model::{Answer, UnitKind};
use salt_schema::Schema;
use salt_units::OpenUnit;
use salt_values::{Id, is_same_id, next_number};
use std::alloc::{AllocError, Global};

/// A unit that runs or waits.
#[derive(Drop)]
pub struct Held {
    /// Its name, its variables and its changes.
    pub open: OpenUnit,
    pub kind: UnitKind,
    /// Whether it began with a line that is one statement.
    pub single: bool,
    pub waiting: bool,
    /// While it waits, the statement of the line in which it began to.
    pub asks: Option<Shared<Statement>>,
    /// How many statements of its block are done; a unit without a block counts none.
    pub done: u64,
}

impl Held {
    ghost use Rattle.salt_books.specs.Books.{AreLoaded, HasActed};
    ghost use Rattle.salt_books.specs.Held.{is_of_program, is_of_session, seen};

    /// Whether it has this name.
    pub fn is_named(&self, unit: Id) -> bool
        ensures { result ≡ is_same_id (seen self.now).unit unit }
    {
        is_same_id(self.open.unit, unit)
    }

    /// Whether it began before this boot.
    pub fn began_before(&self, boot: u64) -> bool
        ensures { result ≡ nat_lt (seen self.now).unit.boot boot }
    {
        self.open.unit.boot < boot
    }

    /// Whether it is a session's.
    pub fn belongs_to_session(&self, session: u8) -> bool
        ensures { result ≡ is_of_session session self.now }
    {
        match &self.kind {
            UnitKind::Acid { session: own } => session == *own,
            UnitKind::Call { session: own, .. } => session == *own,
            UnitKind::First { session: own, .. } => session == *own,
            UnitKind::Later { .. } => false,
        }
    }

    /// Whether it is a BASE program's.
    pub fn belongs_to_program(&self, base: Id) -> bool
        ensures { result ≡ is_of_program base self.now }
    {
        match &self.kind {
            UnitKind::Acid { .. } => false,
            UnitKind::Call { .. } => false,
            UnitKind::First { base: own, .. } => is_same_id(base, *own),
            UnitKind::Later { base: own, .. } => is_same_id(base, *own),
        }
    }

    /// Does a statement over the rows in its reach, each of which stands at the place of its key. No set may be of a key column.
    /// An `AllocError` leaves the unit as it was.
    pub fn act(
        &mut self,
        alloc: Global,
        rows: &Loaded,
        schema: &Schema,
        statement: &Statement,
    ) -> Result<Answer, AllocError>
        requires keyed { IsKeyed rows.now }
        requires leaves_keys { leaves_keys schema.now statement.now ≡ true }
        ensures done { IfOk result (λ answer. (k : Kept) → schema.now ≡ schema_of k
            → AreLoaded (reach (schema_of k) self.old.open.vars statement.now) rows.now k.tables
            → HasActed k statement.now (seen self.old) answer (seen self.new)) }
        ensures unit { self.new.open.unit ≡ self.old.open.unit }
    {
        statements_are_done_under_edits();
        let mut view = LoadedView::new(rows);
        let done = count_on(&self.kind, self.done)?;
        match self.open.act(alloc, &mut view, schema, statement) {
            Ok(answer) => {
                self.waiting = false;
                self.asks = None;
                self.done = done;
                Ok(answer)
            }
            Err(ViewErr::Memory) => Err(AllocError),
            Err(ViewErr::Fault) => unreachable!(),
        }
    }
}

/// One statement of a block more; a unit without a block counts none.
pub fn count_on(kind: &UnitKind, done: u64) -> Result<u64, AllocError>
    ensures { IfOk result (λ count. count ≡ count_on kind.now done) }
{
    match kind {
        UnitKind::Acid { .. } => Ok(done),
        UnitKind::Call { .. } => next_number(done),
        UnitKind::First { .. } => next_number(done),
        UnitKind::Later { .. } => next_number(done),
    }
}

/// How many programs have begun with a unit of this kind.
pub fn count_bases(kind: &UnitKind, count: u64) -> Result<u64, AllocError>
    ensures { IfOk result (λ bases. bases ≡ (if is_some (program_begun kind.now) then count + 1 else count)) }
{
    match program_begun(kind) {
        Some(_) => next_number(count),
        None => Ok(count),
    }
}
