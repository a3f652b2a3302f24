//! What is done once the devices have given its rows, or have decided it.

ghost use Rattle.salt_ast.specs.ProgramTexts.{program_text};
ghost use Rattle.salt_ast.specs.Texts.{table_text};
ghost use Rattle.salt_ast.specs.declared.lines.Line.TheVariants.{Program, Table};
ghost use Rattle.salt_books.specs.Books.{HaveUnit, programs_in, tables_in};
ghost use Rattle.salt_eval.specs.Scans.{IsKeyed};
ghost use Rattle.salt_program.specs.Refusals.{parts_in, program_refusal};
ghost use Rattle.salt_schema.specs.Refusals.{table_refusal};
ghost use Rattle.salt_units.specs.Acting.{leaves_keys};
ghost use Rattle.std.specs.Prelude.{IfOk, None, length, true, ◌+◌, ◌<◌, ◌^◌, ◌≡◌};

use crate::behind::{Behind, behind_commit};
use crate::recovery::Recovery;
use salt_ast::{ProgramDef, TableDef};
use salt_books::{Asking, cause_of};
use salt_cont::Move;
use salt_loaded::Loaded;
use salt_model::{Cause, End, Event};
use salt_values::{Id, Steps};
use std::alloc::AllocError;
use std::sync::ledger::Ledger;

impl Recovery {
    ghost use Rattle.salt_drain.specs.Done.{HasBranched, HasCommitted, HasDefined, HasDone};
    ghost use Rattle.salt_drain.specs.Recovering.{books_of};

    /// A unit that goes on with a program does the statement that it asks for, over the rows that this reaches: one step, whatever it
    /// answers.
    pub fn done<L: Ledger>(
        &mut self,
        asking: Asking,
        rows: &Loaded,
        steps: &mut Steps<L>,
    ) -> Result<Event, AllocError>
        requires there { HaveUnit (books_of self.old) asking.unit }
        requires leaves_keys { leaves_keys (tables_in (books_of self.old)) asking.statement ≡ true }
        requires keyed { IsKeyed rows.now }
        ensures gives { IfOk result (HasDone asking rows.now self.old self.new) }
        ensures ticks { steps.new ≡ steps.old + 1 }
    {
        let Asking {
            unit,
            base: _base,
            family: _family,
            statement,
            reach: _reach,
        } = asking;
        steps.tick();
        let answer = self.books.act(unit, rows, &statement)?;
        self.behind = Behind::Done {
            unit,
            failed: cause_of(&answer),
        };
        Ok(Event::Did {
            unit,
            statement,
            answer,
        })
    }

    /// The commit of a unit has been decided, with this move of its program: it commits.
    pub fn committed(&mut self, unit: Id, made: Move, number: u64) -> Result<Event, AllocError>
        requires { HaveUnit (books_of self.old) unit }
        ensures { IfOk result (HasCommitted unit made number self.old self.new) }
    {
        let held = self.books.held(unit);
        let behind = behind_commit(&held.kind);
        self.books.commit(unit, made, number)?;
        self.behind = behind;
        Ok(Event::Ended {
            unit,
            end: End::Committed(number),
        })
    }

    /// The failure of a later part has been decided, with this move of its program: the program tries it again, or goes on at
    /// its branch.
    pub fn branched(
        &mut self,
        unit: Id,
        base: Id,
        cause: Cause,
        made: Move,
        number: u64,
    ) -> Result<Event, AllocError>
        requires { HaveUnit (books_of self.old) unit }
        ensures { IfOk result (HasBranched unit base cause made number self.old self.new) }
    {
        self.books.branch(unit, made, number)?;
        self.behind = Behind::Finish(base);
        Ok(Event::Ended {
            unit,
            end: End::Branched(number, cause),
        })
    }

    /// The table of the last line has been decided: it is defined.
    pub fn table_defined(&mut self, def: &TableDef) -> Result<Event, AllocError>
        requires { table_refusal (tables_in (books_of self.old)) def.now ≡ None }
        ensures { IfOk result (HasDefined (Table def.now) (table_text def.now) self.old self.new) }
    {
        let (number, text) = self.books.define_table(def)?;
        self.behind = Behind::Nothing;
        Ok(Event::Defined { number, text })
    }

    /// The program of the last line has been decided: it is defined.
    pub fn program_defined(&mut self, def: &ProgramDef) -> Result<Event, AllocError>
        requires parts { length (parts_in def.now.body) < 2 ^ 32 }
        requires allowed { program_refusal (tables_in (books_of self.old)) (programs_in (books_of self.old)) def.now ≡ None }
        ensures { IfOk result (HasDefined (Program def.now) (program_text def.now) self.old self.new) }
    {
        let (number, text) = self.books.define_program(def)?;
        self.behind = Behind::Nothing;
        Ok(Event::Defined { number, text })
    }
}
