//! The first event of a line.

ghost use Rattle.std.specs.Option.{option_copied};
ghost use Rattle.std.specs.Prelude.{◌≡◌, ◌<◌, ◌^◌, IfOk, List, None, Option, Some, false, length, option_map, ℕ};
ghost use Rattle.salt_ast.specs.declared.lines.Act.{Act};
ghost use Rattle.salt_ast.specs.declared.lines.Line.{Line};
ghost use Rattle.salt_books.specs.Held.{seen};
ghost use Rattle.law_states.specs.OpenUnits.{unit_of_session};
ghost use Rattle.law_states.specs.Readings.{clash_by, items_by};
ghost use Rattle.law_states.specs.States.{State};
ghost use Rattle.salt_books.specs.Books.{programs_in, tables_in};
ghost use Rattle.salt_program.specs.Refusals.{parts_in, program_refusal};
ghost use Rattle.salt_schema.specs.Refusals.{table_refusal};
ghost use Rattle.salt_scheduler.specs.Serving.{is_prepared_line};
ghost use Rattle.salt_ast.specs.ProgramTexts.{program_text};
ghost use Rattle.salt_ast.specs.Texts.{table_text};
ghost use Rattle.law_states.specs.Told.{act_in, calls_in, go_in, kind_called_in, line_in, next_decision_number};
ghost use Rattle.salt_model.specs.Kept.{kept_program};
ghost use Rattle.salt_model.specs.declared.events.Event.{Event};

use crate::follow::Follow;
use crate::scheduler::Scheduler;
use salt_ast::{Act, Body, Line, Pairs, ProgramDef, TableDef};
use salt_books::{Coming, Held};
use salt_model::{End, Event, Refusal, UnitKind};
use salt_values::{Id, Name, Row, TryCopy};
use std::alloc::AllocError;

/// The name of a unit, if there is one.
fn name_of(held: Option<&Held>) -> Option<Id>
    ensures { result ≡ option_map (λ h. (seen h).unit) (option_copied held.entry) }
{
    match held {
        Some(held) => Some(held.open.unit()),
        None => None,
    }
}

impl Scheduler {
    ghost use Rattle.salt_scheduler.specs.Standing.{DoesAllowed, ChoosesAllowed, ChoosesNext, DoesNext, StandsForState, books_of};

    /// The table of a line has been decided: it is defined.
    pub fn table_defined(&mut self, line: &Line, def: &TableDef) -> Result<Event, AllocError>
        requires allowed { table_refusal (tables_in (books_of self.old)) def.now ≡ None }
        requires line { line.now ≡ Line.Table def.now }
        ensures event { IfOk result (λ e. (n : ℕ) × (text : List ℕ) × (e ≡ Event.Defined n text)) }
        ensures does { IfOk result (λ e. DoesAllowed (λ s r. Some (Event.Defined (next_decision_number s.units) (table_text def.now))) line.now self.old self.new e) }
    {
        let (number, text) = self.books.define_table(def)?;
        self.follow = Follow::Nothing;
        Ok(Event::Defined { number, text })
    }

    /// The program of a line has been decided: it is defined.
    pub fn program_defined(&mut self, line: &Line, def: &ProgramDef) -> Result<Event, AllocError>
        requires allowed { program_refusal (tables_in (books_of self.old)) (programs_in (books_of self.old)) def.now ≡ None }
        requires line { line.now ≡ Line.Program def.now }
        requires parts { length (parts_in def.now.body) < 2 ^ 32 }
        ensures event { IfOk result (λ e. (n : ℕ) × (text : List ℕ) × (e ≡ Event.Defined n text)) }
        ensures does { IfOk result (λ e. DoesAllowed (λ s r. Some (Event.Defined (next_decision_number s.units) (program_text def.now))) line.now self.old self.new e) }
    {
        let (number, text) = self.books.define_program(def)?;
        self.follow = Follow::Nothing;
        Ok(Event::Defined { number, text })
    }

    /// The kind of a unit that a session's call begins, if there is a program of the name.
    fn kind_called(
        &self,
        session: u8,
        name: &Name,
        args: &Row,
    ) -> Result<Option<UnitKind>, AllocError>
        ensures { IfOk result (λ kind. (s : State) → StandsForState self.now s
            → kind ≡ option_map (λ p. kind_called_in s.units session name.now args.now p.body) (kept_program name.now s.units.kept)) }
    {
        let Some(def) = self.books.known().program(name) else {
            return Ok(None);
        };
        let program = name.copy(self.alloc)?;
        let args = args.copy(self.alloc)?;
        match def.body {
            Body::Acid(_) => Ok(Some(UnitKind::Call {
                session,
                program,
                args,
            })),
            Body::Base(_) => Ok(Some(UnitKind::First {
                session,
                base: self.books.next_base()?,
                program,
                args,
            })),
        }
    }

    /// A session calls a program.
    fn call(
        &mut self,
        line: &Line,
        session: u8,
        name: &Name,
        args: &Row,
    ) -> Result<Coming, AllocError>
        ensures { IfOk result (λ coming. ChoosesNext (λ s r. calls_in s.units session name.now args.now) line.now self.old self.new coming) }
    {
        match self.kind_called(session, name, args)? {
            Some(kind) => Ok(Coming::Told(self.begin(line, kind)?)),
            None => Ok(Coming::Nothing),
        }
    }

    /// What an act of a session brings.
    fn act_of(&mut self, line: &Line, session: u8, act: &Act) -> Result<Coming, AllocError>
        ensures { IfOk result (λ coming. ChoosesNext (λ s r. act_in s.units (clash_by s) session act.now (unit_of_session session s.units)) line.now self.old self.new coming) }
    {
        let open = name_of(self.books.unit_of_session(session));
        match act {
            Act::Begin => Ok(Coming::Told(self.begin(line, UnitKind::Acid { session })?)),
            Act::Call { program, args } => self.call(line, session, program, args),
            Act::Do(_) => match open {
                Some(unit) => self.take_turn(line, unit),
                None => Ok(Coming::Told(self.begin(line, UnitKind::Acid { session })?)),
            },
            Act::Step => match open {
                Some(unit) => self.take_turn(line, unit),
                None => Ok(Coming::Nothing),
            },
            Act::Commit => match open {
                Some(unit) => Ok(self.commit(line, unit)),
                None => Ok(Coming::Nothing),
            },
            Act::Rollback => match open {
                Some(unit) => Ok(Coming::Told(self.end(line, unit, End::RolledBack)?)),
                None => Ok(Coming::Nothing),
            },
        }
    }

    /// A turn of a program that goes on: of its open unit, or its next part begins.
    pub fn go(&mut self, line: &Line, base: Id) -> Result<Coming, AllocError>
        ensures { IfOk result (λ coming. ChoosesNext (λ s r. go_in s.units (clash_by s) base) line.now self.old self.new coming) }
    {
        let open = name_of(self.books.unit_of_program(base));
        match open {
            Some(unit) => self.take_turn(line, unit),
            None => match self.books.known().cont(base) {
                Some(cont) => {
                    let part = cont.next;
                    Ok(Coming::Told(self.begin(line, UnitKind::Later { base, part })?))
                }
                None => Ok(Coming::Nothing),
            },
        }
    }

    /// A line is refused: no turn is owed behind it.
    pub fn refuse(&mut self, line: &Line, refusal: Refusal) -> Event
        ensures event { result ≡ Event.Refused refusal }
        ensures does { DoesNext (λ s r. Some (Event.Refused refusal)) line.now self.old self.new result }
    {
        self.books.refuse();
        self.follow = Follow::Nothing;
        Event::Refused(refusal)
    }

    /// Stops have been armed, or what befalls messages.
    pub fn armed(&mut self, line: &Line, pairs: Pairs) -> Event
        ensures event { result ≡ Event.Armed pairs }
        ensures does { DoesNext (λ s r. Some (Event.Armed pairs)) line.now self.old self.new result }
    {
        self.follow = Follow::Nothing;
        Event::Armed(pairs)
    }

    /// What the first event of a line is to be that is not refused, defines nothing and arms nothing.
    pub fn first_of(&mut self, line: &Line) -> Result<Coming, AllocError>
        requires { is_prepared_line line.now ≡ false }
        ensures { IfOk result (λ coming. ChoosesAllowed (λ s r. line_in s.units (clash_by s) (items_by s r) line.now) line.now self.old self.new coming) }
    {
        match line {
            Line::Session { session, act } => self.act_of(line, *session, act),
            Line::Go(base) => self.go(line, *base),
            Line::ShowLocks => Ok(Coming::Told(self.show_locks(line)?)),
            Line::ShowBases => Ok(Coming::Told(self.show_bases(line)?)),
            _ => Ok(Coming::Nothing),
        }
    }
}
