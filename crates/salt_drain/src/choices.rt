//! What comes next in an opening.

ghost use Rattle.salt_books.specs.Books.{HaveUnit};
ghost use Rattle.salt_books.specs.Ends.{done_of};
ghost use Rattle.law_states.specs.OpenUnits.{unit_named};
ghost use Rattle.law_states.specs.States.{State};
ghost use Rattle.law_states.specs.Told.{begins_in, finishes_in, serve_in};
ghost use Rattle.law_states.specs.Follows.{drains_in, unfinished_in};
ghost use Rattle.salt_model.specs.declared.events.End.{End};
ghost use Rattle.salt_model.specs.declared.events.Event.{Event};
ghost use Rattle.salt_model.specs.declared.events.UnitKind.TheVariants.{Later};
ghost use Rattle.salt_drain.specs.Follows.{comes_behind, event_of, rest_in};
ghost use Rattle.salt_values.specs.Id.{in_order};
ghost use Rattle.salt_values.specs.declared.cont.Cont.{Cont};
ghost use Rattle.std.specs.Prelude.{IfOk, List, Some, [], map, option_and_then, ◌∷◌, ◌≡◌};

use crate::behind::Behind;
use crate::recovery::Recovery;
use salt_ast::Line;
use salt_books::Coming;
use salt_model::{Cause, End, Event, UnitKind};
use salt_values::{Id, Ids};
use std::alloc::AllocError;

impl Recovery {
    ghost use Rattle.salt_drain.specs.Done.{DoesAlone};
    ghost use Rattle.salt_drain.specs.Recovering.{AnswersWith, ChoosesNext, ChoosesOf, DoesNext, IsRecovering, StandsForState, books_of};

    /// A unit of an earlier boot is cut.
    fn cut(&mut self, unit: Id) -> Event
        requires { HaveUnit (books_of self.old) unit }
        ensures { DoesNext (λ s. Some (Event.Ended unit End.Cut)) self.old self.new result }
    {
        self.books.end(unit);
        self.behind = Behind::Nothing;
        Event::Ended {
            unit,
            end: End::Cut,
        }
    }

    /// A program goes on: a unit begins with its next part, where no other is open.
    fn begin(&mut self, base: Id, part: u32) -> Result<Event, AllocError>
        ensures { IfOk result (DoesAlone (λ s. Some (begins_in s (Later base part))) self.old self.new) }
    {
        let unit = self
            .books
            .begin(UnitKind::Later { base, part }, self.single)?;
        self.behind = Behind::Turn(unit);
        Ok(Event::Began {
            unit,
            kind: UnitKind::Later { base, part },
        })
    }

    /// The opening is done.
    fn get_ready(&mut self) -> Event
        ensures { DoesNext (λ s. Some Event.Ready) self.old self.new result }
    {
        self.behind = Behind::Nothing;
        Event::Ready
    }

    /// The opening is done while programs are unfinished: it names them, in order of their names.
    fn open_early(&mut self) -> Result<Event, AllocError>
        ensures { IfOk result (λ e. DoesNext (λ s. Some (Event.Early (in_order (map (λ (c : Cont). c.base) s.kept.conts)))) self.old self.new e) }
    {
        let bases = self.books.known().bases()?;
        let named = Ids::from_slice(self.alloc, bases.as_slice())?;
        self.books.open_early(named);
        self.behind = Behind::Nothing;
        Ok(Event::Early(Ids::from_vec(bases)))
    }

    /// Where programs are unfinished, the opening is done if it may be early; else the program goes on that was accepted first, with
    /// this part.
    fn take_on(&mut self, base: Id, part: u32) -> Result<Event, AllocError>
        ensures { IfOk result (λ e. (s : State) (c : Cont) (cs : List Cont) → StandsForState self.old s → IsRecovering s → s.units.units ≡ []
            → s.units.kept.conts ≡ c ∷ cs → c.base ≡ base → c.next ≡ part → AnswersWith s (Some (unfinished_in s.units.early s.units c cs)) self.new (Some e)) }
    {
        if self.books.opens_early() {
            self.open_early()
        } else {
            self.begin(base, part)
        }
    }

    /// Where no unit is open, programs that are unfinished are taken on; where none is left, the opening is done.
    fn drain(&mut self) -> Result<Event, AllocError>
        ensures { IfOk result (DoesAlone (λ s. Some (drains_in s s.kept.conts)) self.old self.new) }
    {
        match self.books.next_drained() {
            Some(cont) => {
                let base = cont.base;
                let part = cont.next;
                self.take_on(base, part)
            }
            None => Ok(self.get_ready()),
        }
    }

    /// What comes behind an Opened with no decision in flight, and behind each event that nothing follows: a unit of an earlier
    /// boot is cut, or a program goes on, or the opening is done.
    pub fn opened(&mut self) -> Result<Coming, AllocError>
        ensures { IfOk result (λ coming. ChoosesNext (λ s. rest_in s) self.old self.new coming) }
    {
        match self.books.next_cut() {
            Some(unit) => match self.books.unit_named(unit) {
                Some(_) => Ok(Coming::Told(self.cut(unit))),
                None => Ok(Coming::Nothing),
            },
            None => {
                if self.books.count() > 0 {
                    Ok(Coming::Nothing)
                } else {
                    Ok(Coming::Told(self.drain()?))
                }
            }
        }
    }

    /// A unit is to do its next statement, if it is open and has one. That it goes on with a program is known: what it asks for
    /// does not depend on the line.
    fn serve(&self, unit: Id) -> Result<Coming, AllocError>
        ensures { IfOk result (λ coming. ChoosesOf unit (λ s. option_and_then (serve_in s) (unit_named unit s.units)) self.now coming) }
    {
        match self.books.asking(&Line::Nothing, unit)? {
            Some(asking) => Ok(Coming::Act(asking)),
            None => Ok(Coming::Nothing),
        }
    }

    /// A unit whose statement has failed is to end by this cause: its program goes on behind the failure.
    fn fail(&self, unit: Id, cause: Cause) -> Coming
        ensures { ChoosesOf unit (λ s. done_of s (Some cause) (unit_named unit s.units)) self.now result }
    {
        let Some(held) = self.books.unit_named(unit) else {
            return Coming::Nothing;
        };
        match held.kind {
            UnitKind::Later { base, .. } => Coming::Branch { unit, base, cause },
            // No other goes on in an opening.
            _ => Coming::Nothing,
        }
    }

    /// How a unit is to end that has done a statement, if it ends.
    fn end_behind(&self, unit: Id, failed: Option<Cause>) -> Coming
        ensures { ChoosesOf unit (λ s. done_of s failed (unit_named unit s.units)) self.now result }
    {
        match failed {
            Some(cause) => self.fail(unit, cause),
            None => self.books.commit_at_end(unit),
        }
    }

    /// A unit that has done a statement is to end, or to do its next one.
    fn go_on_behind(&self, unit: Id, failed: Option<Cause>) -> Result<Coming, AllocError>
        ensures { IfOk result (λ coming. ChoosesOf unit (λ s. event_of (Behind.Done unit failed) s) self.now coming) }
    {
        let ending = self.end_behind(unit, failed);
        match &ending {
            Coming::Nothing => self.serve(unit),
            _ => Ok(ending),
        }
    }

    /// A program is accepted.
    fn accept(&mut self, base: Id) -> Event
        ensures { DoesNext (λ s. Some (Event.Accepted base)) self.old self.new result }
    {
        self.behind = Behind::Finish(base);
        Event::Accepted(base)
    }

    /// A program has come to its end, if it goes on nowhere.
    fn finish(&mut self, base: Id) -> Coming
        ensures { ChoosesNext (λ s. finishes_in s base) self.old self.new result }
    {
        if self.books.known().cont(base).is_some() {
            return Coming::Nothing;
        }
        self.behind = Behind::Nothing;
        Coming::Told(Event::Finished(base))
    }

    /// What follows the event at hand.
    fn follow_up(&mut self) -> Result<Coming, AllocError>
        ensures { IfOk result (λ coming. ChoosesNext (λ s. event_of self.old.behind s) self.old self.new coming) }
    {
        match self.behind {
            Behind::Nothing => Ok(Coming::Nothing),
            Behind::Turn(unit) => self.serve(unit),
            Behind::Done { unit, failed } => self.go_on_behind(unit, failed),
            Behind::Accept(base) => Ok(Coming::Told(self.accept(base))),
            Behind::Finish(base) => Ok(self.finish(base)),
        }
    }

    /// What comes behind the event at hand: what follows it, or what the opening goes on with.
    pub fn go_on(&mut self) -> Result<Coming, AllocError>
        ensures { IfOk result (λ coming. ChoosesNext (λ s. comes_behind self.old.behind s) self.old self.new coming) }
    {
        let following = self.follow_up()?;
        match &following {
            Coming::Nothing => self.opened(),
            _ => Ok(following),
        }
    }
}
