//! The books, and how units begin and wait.

ghost use Rattle.law_states.specs.OpenUnits.{UnitState, names_in};
ghost use Rattle.law_states.specs.Rising.{Rising};
ghost use Rattle.law_states.specs.Steps.{units_after};
ghost use Rattle.law_states.specs.Told.{next_unit};
ghost use Rattle.salt_model.specs.Kept.{Kept};
ghost use Rattle.salt_model.specs.Turns.{is_statement_line};
ghost use Rattle.salt_model.specs.Phases.{Phase};
ghost use Rattle.salt_model.specs.Waiting.{statement_of_line};
ghost use Rattle.salt_model.specs.declared.events.Event.{Event};
ghost use Rattle.salt_model.specs.declared.events.Owner.{Owner};
ghost use Rattle.salt_ast.specs.declared.lines.Line.{Line};
ghost use Rattle.salt_books.specs.Known.{IsKnown};
ghost use Rattle.std.specs.Prelude.{IfOk, List, OnOk, [], false, ◌≡◌};

use crate::held::{Held, count_bases};
use crate::known::Known;
use crate::places::{place_named, stays_in_order};
use salt_ast::{Shared, Statement};
use salt_model::UnitKind;
use salt_queue::Queue;
use salt_units::OpenUnit;
use salt_values::{Id, Ids, next_number};
use std::alloc::{AllocError, Global};
use std::marker::Model;

/// The open units in order of their names and whether it is known that these rise, how many units and programs have begun in this
/// boot, the programs to which `go all` has still to turn, whether openings may be early, the programs that the last early one
/// names, whether one of these is to have a turn behind the line, and what is known of the database. An `AllocError` leaves them in
/// no state that is told.
pub struct Books {
    pub(crate) alloc: Global,
    pub(crate) known: Known,
    pub(crate) units: Vec<Held>,
    pub(crate) rising: bool,
    pub(crate) unit_count: u64,
    pub(crate) base_count: u64,
    pub(crate) to_go: Queue<Id>,
    pub(crate) early: bool,
    pub(crate) named: Ids,
    pub(crate) owes: bool,
}

impl Model for Books {
    ghost use Rattle.salt_ast.specs.contracts.trees.Expr as expr;
    ghost use Rattle.law_states.specs.Rising.{AreInOrder};
    ghost use Rattle.salt_books.specs.Held.{seen};
    ghost use Rattle.salt_books.specs.Names.{names_held};
    ghost use Rattle.salt_books.specs.Shown.{ShownBooks};
    ghost use Rattle.std.specs.Coded.{codes};
    ghost use Rattle.std.specs.Prelude.{IsTrue, map};

    ghost Value = { ShownBooks };

    ghost coded = { Prim.hlevel (codes, expr.the_row.coded) };

    ghost view = { λ x. record { known = x.known; units = map seen x.units.items; unit_count = x.unit_count; base_count = x.base_count; to_go = x.to_go; early = x.early; named = x.named; owes = x.owes } };

    ghost invariant = { λ x. IsTrue x.rising → AreInOrder (names_held x.units.items) };
}

impl Drop for Books {
    fn drop(self) {
        let Books {
            alloc: _alloc,
            known: _known,
            units: _units,
            rising: _rising,
            unit_count: _unit_count,
            base_count: _base_count,
            to_go: _to_go,
            early: _early,
            named: _named,
            owes: _owes,
        } = self;
    }
}

impl Books {
    ghost use Rattle.salt_books.specs.Books.{AreBooks, HaveUnit, begun_in, known_in};

    /// No units, and what is known of a database; so many units have begun in this boot, and no program. Whether openings may be
    /// early is told; none has been.
    pub fn new(alloc: Global, known: Known, begun: u64, early: bool) -> Books
        ensures { (k : Kept) (phase : Phase) (line : Line) → IsKnown known k → AreBooks result (record {
          kept = k;
          phase = phase;
          line = line;
          to_go = [];
          early = early;
          named = [];
          owes = false;
          units = [];
          unit_count = begun;
          base_count = 0;
        }) }
    {
        Books {
            alloc,
            known,
            units: Vec::new(alloc),
            rising: true,
            unit_count: begun,
            base_count: 0,
            to_go: Queue::new(alloc),
            early,
            named: Ids::new(alloc),
            owes: false,
        }
    }

    /// What is known of the database, and how many units have begun in this boot.
    pub fn into_parts(self) -> (Known, u64)
        ensures known { result.0 ≡ known_in self }
        ensures begun { result.1 ≡ begun_in self }
    {
        let Books {
            alloc: _alloc,
            known,
            units: _units,
            rising: _rising,
            unit_count,
            base_count: _base_count,
            to_go: _to_go,
            early: _early,
            named: _named,
            owes: _owes,
        } = self;
        (known, unit_count)
    }

    /// A unit begins, with the next name.
    pub fn begin(&mut self, kind: UnitKind, single: bool) -> Result<Id, AllocError>
        ensures name { IfOk result (λ unit. (s : UnitState) → AreBooks self.old s → unit ≡ next_unit s) }
        ensures state { OnOk result ((s : UnitState) → AreBooks self.old s → single ≡ is_statement_line s.line
            → AreBooks self.new (units_after (Event.Began (next_unit s) kind) s)) }
    {
        let vars = self.known.vars_of_kind(&kind)?;
        let seq = next_number(self.unit_count)?;
        let base_count = count_bases(&kind, self.base_count)?;
        let boot = self.known.boot();
        let unit = Id { boot, seq };
        let rising = stays_in_order(self.units.as_slice(), self.rising, unit);
        self.rising = false;
        self.units.push(Held {
            open: OpenUnit::new(self.alloc, unit, vars),
            kind,
            single,
            waiting: false,
            asks: None,
            done: 0,
        })?;
        self.rising = rising;
        self.unit_count = seq;
        self.base_count = base_count;
        Ok(unit)
    }

    /// A unit waits, and asks for what the line asks for in which it begins to. That names rise is the law `names_rise`.
    pub fn wait(&mut self, unit: Id, asks: Option<Shared<Statement>>)
        requires { HaveUnit self.old unit }
        ensures { (s : UnitState) (owners : List Owner) → AreBooks self.old s → Rising (names_in s.units) → asks ≡ statement_of_line s.line
            → AreBooks self.new (units_after (Event.Waits unit owners) s) }
    {
        let at = place_named(self.units.as_slice(), self.rising, unit);
        let held = &mut self.units[at];
        held.waiting = true;
        held.asks = asks;
    }
}
