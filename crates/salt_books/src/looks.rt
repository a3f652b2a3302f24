//! What the books tell of units.

ghost use Rattle.salt_ast.specs.declared.trees.Statement.{Statement};
ghost use Rattle.salt_books.specs.Books.{AreBooks, known_in};
ghost use Rattle.salt_books.specs.Coming.{CommitsAtEnd};
ghost use Rattle.salt_books.specs.Held.{is_of_program, is_of_session, seen};
ghost use Rattle.salt_books.specs.declared.held.Held.{Held};
ghost use Rattle.law_states.specs.OpenUnits.{UnitState, asking, asks_next, names_in, unit_named, unit_of_program, unit_of_session};
ghost use Rattle.law_states.specs.Readings.{first_parts};
ghost use Rattle.law_states.specs.Told.{is_at_end_in, next_base, next_unit};
ghost use Rattle.law_states.specs.UnitFacts.{reach_under};
ghost use Rattle.salt_model.specs.Kept.{block_of_kind};
ghost use Rattle.salt_model.specs.Units.{program_begun};
ghost use Rattle.salt_model.specs.Waiting.{statement_of_line};
ghost use Rattle.std.specs.List.{filter_map, find};
ghost use Rattle.std.specs.Option.{option_copied};
ghost use Rattle.std.specs.Prelude.{IfOk, None, length, map, option_map, ◌≡◌};

use crate::books::Books;
use crate::coming::Coming;
use crate::held::Held;
use crate::kinds::program_begun;
use crate::known::Known;
use crate::places::named_among;
use salt_ast::{Act, Line, Shared, Statement};
use salt_model::Reach;
use salt_values::{Id, next_number};
use std::alloc::{AllocError, Global};

/// The statement of a session's line.
fn statement_of_line(line: &Line) -> Option<&Shared<Statement>>
    ensures { option_copied result ≡ statement_of_line line.now }
{
    match line {
        Line::Session { act, .. } => match act {
            Act::Do(statement) => Some(statement),
            _ => None,
        },
        _ => None,
    }
}

/// What a unit without a block asks for: the statement of the line, or of the one in which it began to wait.
fn asked_by_line<'a>(held: &'a Held, line: &'a Line) -> Option<&'a Shared<Statement>>
    ensures { option_copied result ≡ asking line.now (seen held.now) None }
{
    if held.waiting {
        held.asks.as_ref()
    } else {
        statement_of_line(line)
    }
}

/// What a unit asks for: the next statement of its block, where it has one.
fn asked<'a>(
    held: &'a Held,
    line: &'a Line,
    block: Option<&'a [Shared<Statement>]>,
) -> Option<&'a Shared<Statement>>
    ensures { option_copied result ≡ asking line.now (seen held.now) (option_copied block.entry) }
{
    match block {
        Some(block) => block.get(held.done as usize),
        None => asked_by_line(held, line),
    }
}

fn ends_block(held: &Held, block: Option<&[Shared<Statement>]>) -> bool
    ensures { result ≡ is_at_end_in (seen held.now) (option_copied block.entry) }
{
    match block {
        Some(block) => held.done == block.len() as u64,
        None => held.single,
    }
}

fn session_in(units: &[Held], session: u8) -> Option<&Held>
    ensures { option_copied result ≡ find (is_of_session session) units.now }
{
    units.iter().find(|held| held.belongs_to_session(session))
}

fn program_in(units: &[Held], base: Id) -> Option<&Held>
    ensures { option_copied result ≡ find (is_of_program base) units.now }
{
    units.iter().find(|held| held.belongs_to_program(base))
}

fn names_of(alloc: Global, units: &[Held]) -> Result<Vec<Id>, AllocError>
    ensures { IfOk result (λ names. names.items ≡ map (λ (h : Held). h.open.unit) units.now) }
{
    let mut names = Vec::new(alloc);
    for held in units {
        names.push(held.open.unit)?;
    }
    Ok(names)
}

fn first_parts_of(alloc: Global, units: &[Held]) -> Result<Vec<Id>, AllocError>
    ensures { IfOk result (λ bases. bases.items ≡ filter_map (λ (h : Held). program_begun h.kind) units.now) }
{
    let mut bases = Vec::new(alloc);
    for held in units {
        if let Some(base) = program_begun(&held.kind) {
            bases.push(base)?;
        }
    }
    Ok(bases)
}

impl Books {
    /// What is known of the database.
    pub fn known(&self) -> &Known
        ensures { result.now ≡ known_in self.now }
    {
        &self.known
    }

    /// The open unit of a name. It is looked for by halves where names are known to rise.
    pub fn unit_named(&self, unit: Id) -> Option<&Held>
        ensures { (s : UnitState) → AreBooks self.now s → option_map seen (option_copied result) ≡ unit_named unit s.units }
    {
        named_among(self.units.as_slice(), self.rising, unit)
    }

    /// The open unit of a session. It looks through the units.
    pub fn unit_of_session(&self, session: u8) -> Option<&Held>
        ensures { (s : UnitState) → AreBooks self.now s → option_map seen (option_copied result) ≡ unit_of_session session s }
    {
        session_in(self.units.as_slice(), session)
    }

    /// The open unit of a BASE program. It looks through the units.
    pub fn unit_of_program(&self, base: Id) -> Option<&Held>
        ensures { (s : UnitState) → AreBooks self.now s → option_map seen (option_copied result) ≡ unit_of_program base s }
    {
        program_in(self.units.as_slice(), base)
    }

    /// The statement that a unit asks for in a line: the next of its block; without a block that of the line, or of the one in
    /// which it began to wait.
    pub fn asks_next<'a>(&'a self, held: &'a Held, line: &'a Line) -> Option<&'a Shared<Statement>>
        ensures { (s : UnitState) → AreBooks self.now s → line.now ≡ s.line → option_copied result ≡ asks_next s (seen held.now) }
    {
        let block = self.known.block_of_kind(&held.kind);
        asked(held, line, block)
    }

    /// Whether a unit ends with its last statement: behind the last of its block, or where it began with a line that is one.
    fn is_at_end(&self, held: &Held) -> bool
        ensures { (s : UnitState) → AreBooks self.now s → result ≡ is_at_end_in (seen held.now) (block_of_kind s.kept held.now.kind) }
    {
        let block = self.known.block_of_kind(&held.kind);
        ends_block(held, block)
    }

    /// A unit whose last statement is done is to commit.
    pub fn commit_at_end(&self, unit: Id) -> Coming
        ensures { (s : UnitState) → AreBooks self.now s → CommitsAtEnd s unit result }
    {
        let Some(held) = self.unit_named(unit) else {
            return Coming::Nothing;
        };
        if self.is_at_end(held) {
            Coming::Commit(unit)
        } else {
            Coming::Nothing
        }
    }

    /// What a statement of a unit reaches.
    pub fn reach(&self, held: &Held, statement: &Statement) -> Result<Option<Reach>, AllocError>
        ensures { IfOk result (λ found. (s : UnitState) → AreBooks self.now s → found ≡ reach_under s.kept (seen held.now) statement.now) }
    {
        held.open.ask(self.alloc, self.known.schema(), statement)
    }

    /// The name of the next unit.
    pub fn next_unit(&self) -> Result<Id, AllocError>
        ensures { IfOk result (λ unit. (s : UnitState) → AreBooks self.now s → unit ≡ next_unit s) }
    {
        Ok(Id {
            boot: self.known.boot(),
            seq: next_number(self.unit_count)?,
        })
    }

    /// The name of the next BASE program.
    pub fn next_base(&self) -> Result<Id, AllocError>
        ensures { IfOk result (λ base. (s : UnitState) → AreBooks self.now s → base ≡ next_base s) }
    {
        Ok(Id {
            boot: self.known.boot(),
            seq: next_number(self.base_count)?,
        })
    }

    /// How many units are open.
    pub fn count(&self) -> usize
        ensures { (s : UnitState) → AreBooks self.now s → result ≡ length s.units }
    {
        self.units.len()
    }

    /// The names of the open units, in their order.
    pub fn names(&self) -> Result<Vec<Id>, AllocError>
        ensures { IfOk result (λ names. (s : UnitState) → AreBooks self.now s → names.items ≡ names_in s.units) }
    {
        let names = names_of(self.alloc, self.units.as_slice())?;
        Ok(names)
    }

    /// The programs in their first part, in the order of their units.
    pub fn first_parts(&self) -> Result<Vec<Id>, AllocError>
        ensures { IfOk result (λ bases. (s : UnitState) → AreBooks self.now s → bases.items ≡ first_parts s.units) }
    {
        let bases = first_parts_of(self.alloc, self.units.as_slice())?;
        Ok(bases)
    }
}
