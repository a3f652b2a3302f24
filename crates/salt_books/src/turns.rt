//! Lines, definitions and turns of programs.

ghost use Rattle.salt_ast.specs.ProgramTexts.{program_text};
ghost use Rattle.salt_ast.specs.Texts.{table_text};
ghost use Rattle.salt_ast.specs.declared.lines.Line.TheVariants.{Program, Table};
ghost use Rattle.salt_books.specs.Books.{AreBooks, programs_in, tables_in};
ghost use Rattle.salt_books.specs.Held.{seen};
ghost use Rattle.law_states.specs.OpenUnits.{UnitState, can_go_in, is_not_waiting, next_to_go_in, next_turn_in, turn_owed_in};
ghost use Rattle.law_states.specs.Steps.{to_go_by, units_after, units_asked, units_turned};
ghost use Rattle.law_states.specs.Told.{next_decision_number};
ghost use Rattle.salt_model.specs.Trace.{Tree};
ghost use Rattle.salt_model.specs.Turns.{does_something, ids_after};
ghost use Rattle.salt_model.specs.declared.events.Event.{Event};
ghost use Rattle.salt_model.specs.declared.events.Refusal.{Refusal};
ghost use Rattle.salt_program.specs.Refusals.{parts_in, program_refusal};
ghost use Rattle.salt_schema.specs.Refusals.{table_refusal};
ghost use Rattle.std.specs.List.{find};
ghost use Rattle.std.specs.Option.{option_copied};
ghost use Rattle.salt_values.specs.Id.{is_same_id};
ghost use Rattle.salt_values.specs.declared.id.Id.{Id};
ghost use Rattle.std.specs.Prelude.{IfOk, None, OnOk, get_or, is_some, length, option_map, true, ◌&&◌, ◌<◌, ◌^◌, ◌≡◌};

use crate::books::Books;
use crate::held::Held;
use crate::known::Defined;
use salt_ast::{Line, ProgramDef, TableDef};
use salt_queue::Queue;
use salt_values::{Cont, Id, is_same_id};
use std::alloc::{AllocError, Global};

/// The names behind the first that is this one.
fn ids_after(alloc: Global, base: Id, ids: &[Id]) -> Result<Vec<Id>, AllocError>
    ensures { IfOk result (λ left. left.items ≡ ids_after base ids.now) }
{
    let mut at = 0;
    while at < ids.len() && !is_same_id(base, ids[at]) {
        at += 1;
    }
    if at < ids.len() {
        Vec::from_slice(alloc, &ids[at + 1..])
    } else {
        Ok(Vec::new(alloc))
    }
}

/// Whether the first of the names is this one.
fn is_first(ids: &[Id], base: Id) -> bool
    ensures { result ≡ true → (d : Id) → (0 < length ids.now) × (is_same_id base (get_or ids.now 0 d) ≡ true) }
{
    if ids.is_empty() {
        false
    } else {
        is_same_id(base, ids[0])
    }
}

/// Leaves the names behind the first that is this one. As a rule that is the first of all, and then none is copied.
fn pass(alloc: Global, ids: &mut Queue<Id>, base: Id) -> Result<(), AllocError>
    ensures { OnOk result (ids.new ≡ ids_after base ids.old) }
{
    if is_first(ids.as_slice(), base) {
        ids.remove(0);
        return Ok(());
    }
    let left = ids_after(alloc, base, ids.as_slice())?;
    *ids = Queue::from_vec(left);
    Ok(())
}

/// Whether a line does something, if it is not refused.
fn does_something(line: &Line) -> bool
    ensures { result ≡ does_something (Tree line.now) }
{
    match line {
        Line::Nothing => false,
        _ => true,
    }
}

fn is_left_to_go(cont: Option<&Cont>, held: Option<&Held>) -> bool
    ensures { result ≡ (is_some (option_copied cont.entry) && is_not_waiting (option_map seen (option_copied held.entry))) }
{
    match (cont, held) {
        (None, _) => false,
        (Some(_), None) => true,
        (Some(_), Some(held)) => !held.waiting,
    }
}

impl Books {
    fn to_go_by(&self, line: &Line) -> Result<Vec<Id>, AllocError>
        ensures { IfOk result (λ bases. (s : UnitState) → AreBooks self.now s → bases.items ≡ to_go_by (Tree line.now) s.kept) }
    {
        match line {
            Line::GoAll => {
                let bases = self.known.bases()?;
                Ok(bases)
            }
            _ => Ok(Vec::new(self.alloc)),
        }
    }

    /// A line is asked: `go all` goes to each program that goes on, and any other line to none. Behind a line that does something
    /// one more turn is owed.
    pub fn ask(&mut self, line: &Line) -> Result<(), AllocError>
        ensures { OnOk result ((s : UnitState) → AreBooks self.old s → AreBooks self.new (units_asked (Tree line.now) s)) }
    {
        let bases = self.to_go_by(line)?;
        self.to_go = Queue::from_vec(bases);
        self.owes = does_something(line);
        Ok(())
    }

    /// A line is refused: no turn is owed behind it.
    pub fn refuse(&mut self)
        ensures { (s : UnitState) (refusal : Refusal) → AreBooks self.old s → AreBooks self.new (units_after (Event.Refused refusal) s) }
    {
        self.owes = false;
    }

    /// A program has its turn: one of those of `go all`, or the one owed behind the line.
    pub fn turn(&mut self, base: Id) -> Result<(), AllocError>
        ensures { OnOk result ((s : UnitState) → AreBooks self.old s → AreBooks self.new (units_turned base s)) }
    {
        let owes = self.still_owes();
        pass(self.alloc, &mut self.to_go, base)?;
        self.owes = owes;
        Ok(())
    }

    /// Whether a program is not left out: it goes on, and its unit, if one is open, does not wait.
    fn can_go(&self, base: Id) -> bool
        ensures { (s : UnitState) → AreBooks self.now s → result ≡ can_go_in s base }
    {
        let cont = self.known.cont(base);
        is_left_to_go(cont, self.unit_of_program(base))
    }

    /// The first of these programs that is not left out.
    fn first_that_goes(&self, bases: &[Id]) -> Option<Id>
        ensures { (s : UnitState) → AreBooks self.now s → result ≡ find (can_go_in s) bases.now }
    {
        for base in bases {
            if self.can_go(*base) {
                return Some(*base);
            }
        }
        None
    }

    /// The program to which `go all` turns next.
    fn next_to_go(&self) -> Option<Id>
        ensures { (s : UnitState) → AreBooks self.now s → result ≡ next_to_go_in s }
    {
        self.first_that_goes(self.to_go.as_slice())
    }

    /// Whether a turn is owed behind the line still when a program has had its turn: where that is one of those of `go all`.
    fn still_owes(&self) -> bool
        ensures { (s : UnitState) → AreBooks self.now s → result ≡ (s.owes && is_some (next_to_go_in s)) }
    {
        self.owes && self.next_to_go().is_some()
    }

    /// The program that has the turn owed behind the line.
    fn turn_owed(&self) -> Option<Id>
        ensures { (s : UnitState) → AreBooks self.now s → result ≡ turn_owed_in s }
    {
        if self.owes {
            self.first_that_goes(self.named.as_slice())
        } else {
            None
        }
    }

    /// The program that has the next turn: one of those of `go all`, and then the one owed.
    pub fn next_turn(&self) -> Option<Id>
        ensures { (s : UnitState) → AreBooks self.now s → result ≡ next_turn_in s }
    {
        match self.next_to_go() {
            Some(base) => Some(base),
            None => self.turn_owed(),
        }
    }

    /// Defines a table that is not refused, by the line that is its tree. The number of the decision and the canonical text.
    pub fn define_table(&mut self, def: &TableDef) -> Result<Defined, AllocError>
        requires { table_refusal (tables_in self.old) def.now ≡ None }
        ensures told { IfOk result (λ defined. (s : UnitState) → AreBooks self.old s
            → (defined.0 ≡ next_decision_number s) × (defined.1 ≡ table_text def.now)) }
        ensures state { OnOk result ((s : UnitState) → AreBooks self.old s → s.line ≡ Table def.now
            → AreBooks self.new (units_after (Event.Defined (next_decision_number s) (table_text def.now)) s)) }
    {
        let defined = self.known.define_table(def)?;
        Ok(defined)
    }

    /// Defines a program that is not refused, by the line that is its tree. The number of the decision and the canonical text.
    pub fn define_program(&mut self, def: &ProgramDef) -> Result<Defined, AllocError>
        requires parts { length (parts_in def.now.body) < 2 ^ 32 }
        requires allowed { program_refusal (tables_in self.old) (programs_in self.old) def.now ≡ None }
        ensures told { IfOk result (λ defined. (s : UnitState) → AreBooks self.old s
            → (defined.0 ≡ next_decision_number s) × (defined.1 ≡ program_text def.now)) }
        ensures state { OnOk result ((s : UnitState) → AreBooks self.old s → s.line ≡ Program def.now
            → AreBooks self.new (units_after (Event.Defined (next_decision_number s) (program_text def.now)) s)) }
    {
        let defined = self.known.define_program(def)?;
        Ok(defined)
    }
}
