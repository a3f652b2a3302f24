//! How units end, and what becomes of programs.

ghost use Rattle.std.specs.Prelude.{◌≡◌, IfOk, None, Option, Some, option_map};
ghost use Rattle.salt_ast.specs.declared.lines.Line.{Line};
ghost use Rattle.salt_books.specs.Books.{HaveUnit};
ghost use Rattle.salt_books.specs.Ends.{IsUndecided, done_of};
ghost use Rattle.salt_scheduler.specs.Follows.{event_of};
ghost use Rattle.salt_scheduler.specs.declared.follow.Follow.TheVariants.{Accept, Release};
ghost use Rattle.law_states.specs.Follows.{settles_in};
ghost use Rattle.law_states.specs.OpenUnits.{unit_named};
ghost use Rattle.law_states.specs.Readings.{beside_by};
ghost use Rattle.law_states.specs.Told.{commits_in, finishes_in};
ghost use Rattle.salt_model.specs.Turns.{releases};
ghost use Rattle.salt_model.specs.declared.events.Event.{Event};
ghost use Rattle.salt_values.specs.declared.id.Id.{Id};

use crate::called::{forget, forget_first};
use crate::circles::is_calm_behind;
use crate::follow::{Follow, behind_commit};
use crate::scheduler::Scheduler;
use salt_ast::Line;
use salt_books::{Coming, program_begun, program_of};
use salt_cont::Move;
use salt_model::{Cause, End, Event, UnitKind};
use salt_values::Id;
use std::alloc::AllocError;

impl Scheduler {
    ghost use Rattle.salt_scheduler.specs.Done.{ChoosesBehind, HasBranched, HasCommitted};
    ghost use Rattle.salt_scheduler.specs.Standing.{ChoosesNext, DoesNext, behind_in, books_of, follow_of};

    /// A unit is to commit, if it is open.
    pub(crate) fn commit(&self, line: &Line, unit: Id) -> Coming
        ensures { ChoosesNext (λ s r. option_map (commits_in s.units) (unit_named unit s.units.units)) line.now self.now self.now result }
    {
        match self.books.unit_named(unit) {
            Some(_) => Coming::Commit(unit),
            None => Coming::Nothing,
        }
    }

    /// A unit that is to commit has been decided, by the decision of this number and with this move of its program: it
    /// commits.
    pub fn committed(&mut self, unit: Id, made: Move, number: u64) -> Result<Event, AllocError>
        requires { HaveUnit (books_of self.old) unit }
        ensures { IfOk result (HasCommitted unit made number self.old self.new) }
    {
        let held = self.books.held(unit);
        let follow = behind_commit(&held.kind);
        let base = program_of(&held.kind);
        self.watch.commit(unit, base, held.open.changes())?;
        self.books.commit(unit, made, number)?;
        self.follow = follow;
        self.calm = is_calm_behind(self.calm, base.is_none(), &self.watch);
        Ok(Event::Ended {
            unit,
            end: End::Committed(number),
        })
    }

    /// A unit ends by no decision, and leaves nothing.
    pub(crate) fn end(&mut self, line: &Line, unit: Id, end: End) -> Result<Event, AllocError>
        requires { IsUndecided end }
        ensures { IfOk result (λ e. DoesNext (λ s r. Some (Event.Ended unit end)) line.now self.old self.new e) }
    {
        let Some(held) = self.books.unit_named(unit) else {
            self.watch.end(unit, None);
            self.follow = Follow::Nothing;
            return Ok(Event::Ended { unit, end });
        };
        let first = program_begun(&held.kind);
        self.watch.end(unit, first);
        self.books.end(unit);
        forget_first(&mut self.called, &self.books, &self.watch, first)?;
        self.follow = Follow::Nothing;
        Ok(Event::Ended { unit, end })
    }

    /// The failure of a later part has been decided, with this move of its program: the program tries it again, or goes on at
    /// its branch.
    pub fn branched(
        &mut self,
        unit: Id,
        base: Id,
        cause: Cause,
        made: Move,
        number: u64,
    ) -> Result<Event, AllocError>
        requires { HaveUnit (books_of self.old) unit }
        ensures { IfOk result (HasBranched unit base cause made number self.old self.new) }
    {
        self.watch.end(unit, None);
        self.books.branch(unit, made, number)?;
        self.follow = Follow::Finish(base);
        Ok(Event::Ended {
            unit,
            end: End::Branched(number, cause),
        })
    }

    /// A unit whose statement has failed ends by this cause.
    fn fail(&mut self, line: &Line, unit: Id, cause: Cause) -> Result<Coming, AllocError>
        ensures { IfOk result (λ coming. ChoosesNext (λ s r. done_of s.units (Some cause) (unit_named unit s.units.units)) line.now self.old self.new coming) }
    {
        let Some(held) = self.books.unit_named(unit) else {
            return Ok(Coming::Nothing);
        };
        match held.kind {
            UnitKind::Later { base, .. } => Ok(Coming::Branch { unit, base, cause }),
            _ => Ok(Coming::Told(self.end(line, unit, End::Failed(cause))?)),
        }
    }

    /// What follows a statement: its unit ends by the cause of its failure, or behind its last statement.
    fn go_on_behind(
        &mut self,
        line: &Line,
        unit: Id,
        failed: Option<Cause>,
    ) -> Result<Coming, AllocError>
        ensures { IfOk result (λ coming. ChoosesNext (λ s r. done_of s.units failed (unit_named unit s.units.units)) line.now self.old self.new coming) }
    {
        match failed {
            Some(cause) => self.fail(line, unit, cause),
            None => Ok(self.books.commit_at_end(unit)),
        }
    }

    /// A program is accepted.
    fn accept(&mut self, line: &Line, base: Id) -> Result<Event, AllocError>
        requires { follow_of self.old ≡ Accept base }
        ensures { IfOk result (λ e. DoesNext (λ s r. Some (Event.Accepted base)) line.now self.old self.new e) }
    {
        self.watch.accept(base)?;
        self.follow = Follow::Finish(base);
        Ok(Event::Accepted(base))
    }

    /// A program has come to its end, if it goes on nowhere.
    fn finish(&mut self, line: &Line, base: Id) -> Coming
        ensures { ChoosesNext (λ s r. finishes_in s.units base) line.now self.old self.new result }
    {
        if self.books.known().cont(base).is_some() {
            return Coming::Nothing;
        }
        self.follow = Follow::Release(base);
        Coming::Told(Event::Finished(base))
    }

    /// The programs are released that are due now that this one has finished.
    fn release(&mut self, line: &Line, base: Id) -> Result<Coming, AllocError>
        requires { follow_of self.old ≡ Release base }
        ensures { IfOk result (ChoosesBehind (λ s r. releases (beside_by s r).due) line.now self.old self.new) }
    {
        let due = self.watch.finish(base)?;
        self.follow = Follow::Nothing;
        if due.is_empty() {
            return Ok(Coming::Nothing);
        }
        forget(&mut self.called, &self.books, &self.watch, due.as_slice())?;
        Ok(Coming::Told(Event::Released(due)))
    }

    /// A unit on a circle of waits is given up; where there is none, the unit that has waited longest of those that clash with
    /// nothing goes on.
    pub(crate) fn settle(&mut self, line: &Line) -> Result<Coming, AllocError>
        ensures { IfOk result (λ coming. ChoosesNext (λ s r. settles_in s.units (beside_by s r)) line.now self.old self.new coming) }
    {
        if let Some(unit) = self.victim()? {
            return Ok(Coming::Told(self.end(line, unit, End::Victim)?));
        }
        let served = self.watch.served()?;
        match served {
            Some(unit) => self.serve(line, unit),
            None => Ok(Coming::Nothing),
        }
    }

    /// What follows the event at hand in its turn.
    fn follow_up(&mut self, line: &Line) -> Result<Coming, AllocError>
        ensures { IfOk result (ChoosesBehind (λ s r. event_of (follow_of self.old) s.units (beside_by s r)) line.now self.old self.new) }
    {
        match self.follow {
            Follow::Nothing => Ok(Coming::Nothing),
            Follow::Turn(unit) => self.take_turn(line, unit),
            Follow::Done { unit, failed } => self.go_on_behind(line, unit, failed),
            Follow::Accept(base) => Ok(Coming::Told(self.accept(line, base)?)),
            Follow::Finish(base) => Ok(self.finish(line, base)),
            Follow::Release(base) => self.release(line, base),
        }
    }

    /// What comes behind the event at hand: what follows it in its turn, or what settles.
    pub fn go_on(&mut self, line: &Line) -> Result<Coming, AllocError>
        ensures { IfOk result (ChoosesBehind (λ s r. behind_in s r (follow_of self.old)) line.now self.old self.new) }
    {
        let following = self.follow_up(line)?;
        match &following {
            Coming::Nothing => self.settle(line),
            _ => Ok(following),
        }
    }
}
