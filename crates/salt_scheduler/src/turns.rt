//! How units begin, and what they do in their turns.

ghost use Rattle.std.specs.Prelude.{◌≡◌, IfOk, Some, option_and_then, true};
ghost use Rattle.salt_ast.specs.declared.lines.Line.{Line};
ghost use Rattle.salt_books.specs.Books.{HaveUnit, tables_in};
ghost use Rattle.salt_eval.specs.Scans.{IsKeyed};
ghost use Rattle.law_states.specs.OpenUnits.{unit_named};
ghost use Rattle.law_states.specs.Readings.{clash_by};
ghost use Rattle.law_states.specs.Told.{begins_in, serve_in, turn_of_in};
ghost use Rattle.salt_units.specs.Acting.{leaves_keys};

use crate::called::note_call;
use crate::circles::is_calm_behind;
use crate::follow::{Follow, opens_alone};
use crate::kinds::{copy_statement, is_statement_line};
use crate::scheduler::Scheduler;
use salt_ast::Line;
use salt_books::{Asking, Coming, cause_of, lent, unboxed};
use salt_conflicts::Waiter;
use salt_loaded::Loaded;
use salt_model::{Event, Owners, UnitKind};
use salt_values::{Id, TryCopy};
use std::alloc::AllocError;

impl Scheduler {
    ghost use Rattle.salt_scheduler.specs.Done.{HasDone, HasWaited};
    ghost use Rattle.salt_scheduler.specs.Standing.{ChoosesNext, DoesNext, books_of};

    /// A unit begins.
    pub(crate) fn begin(&mut self, line: &Line, kind: UnitKind) -> Result<Event, AllocError>
        ensures { IfOk result (λ e. DoesNext (λ s r. Some (begins_in s.units kind)) line.now self.old self.new e) }
    {
        let told = kind.copy(self.alloc)?;
        note_call(&mut self.called, &kind)?;
        let alone = opens_alone(line, &kind);
        let unit = self.books.begin(kind, is_statement_line(line))?;
        self.follow = if alone {
            Follow::Nothing
        } else {
            Follow::Turn(unit)
        };
        Ok(Event::Began { unit, kind: told })
    }

    /// A unit does the statement that it asks for, over the rows that this reaches.
    pub fn done(&mut self, asking: Asking, rows: &Loaded) -> Result<Event, AllocError>
        requires there { HaveUnit (books_of self.old) asking.unit }
        requires leaves_keys { leaves_keys (tables_in (books_of self.old)) asking.statement ≡ true }
        requires keyed { IsKeyed rows.now }
        ensures { IfOk result (HasDone asking rows.now self.old self.new) }
    {
        let Asking {
            unit,
            base,
            family,
            statement,
            reach,
        } = asking;
        let answer = self.books.act(unit, rows, &statement)?;
        let more = self.watch.did(unit, base, family, lent(&reach))?;
        self.calm = is_calm_behind(self.calm, !more, &self.watch);
        self.follow = Follow::Done {
            unit,
            failed: cause_of(&answer),
        };
        Ok(Event::Did {
            unit,
            statement,
            answer,
        })
    }

    /// A unit waits for these owners.
    fn wait(&mut self, line: &Line, asking: Asking, owners: Owners) -> Result<Event, AllocError>
        requires { HaveUnit (books_of self.old) asking.unit }
        ensures { IfOk result (HasWaited asking owners line.now self.old self.new) }
    {
        let Asking {
            unit,
            base,
            family,
            statement: _statement,
            reach,
        } = asking;
        self.books.wait(unit, copy_statement(self.alloc, line)?);
        self.calm = false;
        self.watch.wait(Waiter {
            unit,
            base,
            family,
            reach: unboxed(reach),
        })?;
        self.follow = Follow::Nothing;
        Ok(Event::Waits { unit, owners })
    }

    /// A unit takes a turn: it is to do its next statement, or waits for those that hold what it would reach. Where it holds that itself
    /// nobody else does, so that nobody is looked for: as where one row is changed again and again.
    pub(crate) fn take_turn(&mut self, line: &Line, unit: Id) -> Result<Coming, AllocError>
        ensures { IfOk result (λ coming. ChoosesNext (λ s r. turn_of_in s.units (clash_by s) (unit_named unit s.units.units)) line.now self.old self.new coming) }
    {
        let Some(asking) = self.books.asking(line, unit)? else {
            return Ok(Coming::Nothing);
        };
        let reach = lent(&asking.reach);
        if self.watch.holds(unit, asking.family, reach) {
            return Ok(Coming::Act(asking));
        }
        let owners = self.watch.clashing(unit, asking.family, reach)?;
        if owners.is_empty() {
            Ok(Coming::Act(asking))
        } else {
            Ok(Coming::Told(self.wait(line, asking, owners)?))
        }
    }

    /// A unit that has waited is to do its statement.
    pub(crate) fn serve(&self, line: &Line, unit: Id) -> Result<Coming, AllocError>
        ensures { IfOk result (λ coming. ChoosesNext (λ s r. option_and_then (serve_in s.units) (unit_named unit s.units.units)) line.now self.now self.now coming) }
    {
        match self.books.asking(line, unit)? {
            Some(asking) => Ok(Coming::Act(asking)),
            None => Ok(Coming::Nothing),
        }
    }
}
