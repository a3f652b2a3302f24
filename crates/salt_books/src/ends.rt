//! How units do statements and end.

ghost use Rattle.salt_books.specs.Books.{AreBooks, HaveUnit, tables_in};
ghost use Rattle.salt_books.specs.Held.{seen};
ghost use Rattle.salt_books.specs.Done.{AnswersTo, HasBranched, HasCommitted, HasDone, IsMoveOfBranch, IsMoveOfCommit};
ghost use Rattle.salt_books.specs.Ends.{IsUndecided};
ghost use Rattle.salt_eval.specs.Scans.{IsKeyed};
ghost use Rattle.law_states.specs.OpenUnits.{UnitState, names_in, unit_named};
ghost use Rattle.law_states.specs.Rising.{Rising};
ghost use Rattle.law_states.specs.Steps.{units_after};
ghost use Rattle.salt_model.specs.declared.events.End.{End};
ghost use Rattle.salt_model.specs.declared.events.Event.{Event};
ghost use Rattle.salt_units.specs.Acting.{leaves_keys};
ghost use Rattle.std.specs.Prelude.{IfOk, OnOk, Some, true, ◌≡◌};

use crate::books::Books;
use crate::held::Held;
use crate::places::{named_among, place_named};
use salt_ast::{Shared, Statement};
use salt_cont::Move;
use salt_loaded::Loaded;
use salt_model::Answer;
use salt_values::Id;
use std::alloc::AllocError;

impl Books {
    /// A unit does a statement, which may set no key column, over the committed rows in its reach and no others.
    pub fn act(
        &mut self,
        unit: Id,
        rows: &Loaded,
        statement: &Shared<Statement>,
    ) -> Result<Answer, AllocError>
        requires there { HaveUnit self.old unit }
        requires leaves_keys { leaves_keys (tables_in self.old) statement.now ≡ true }
        requires keyed { IsKeyed rows.now }
        ensures answer { IfOk result (AnswersTo unit statement.now rows.now self.old) }
        ensures state { OnOk result (HasDone unit statement.now rows.now self.old self.new) }
    {
        let at = place_named(self.units.as_slice(), self.rising, unit);
        let schema = self.known.schema();
        let answer = self.units[at].act(self.alloc, rows, schema, statement.get())?;
        Ok(answer)
    }

    /// A unit ends by no decision: what it changed is forgotten.
    pub fn end(&mut self, unit: Id)
        requires { HaveUnit self.old unit }
        ensures { (s : UnitState) (end : End) → AreBooks self.old s → Rising (names_in s.units) → IsUndecided end
            → AreBooks self.new (units_after (Event.Ended unit end) s) }
    {
        let at = place_named(self.units.as_slice(), self.rising, unit);
        let _held = self.units.remove(at);
    }

    /// The open unit of this name.
    pub fn held(&self, unit: Id) -> &Held
        requires { HaveUnit self.now unit }
        ensures { (s : UnitState) → AreBooks self.now s → unit_named unit s.units ≡ Some (seen result.now) }
    {
        match named_among(self.units.as_slice(), self.rising, unit) {
            Some(held) => held,
            None => unreachable!(),
        }
    }

    /// The move that a unit will make as it commits by the next decision. The part of a unit is the one at which its program
    /// stands by the law `later_units_stand_at_their_parts`.
    pub fn move_of_commit(&self, unit: Id) -> Result<Move, AllocError>
        requires { HaveUnit self.now unit }
        ensures { IfOk result (IsMoveOfCommit self.now unit) }
    {
        let held = self.held(unit);
        self.known.move_of_commit(&held.kind, &held.open.vars)
    }

    /// The move that a unit will make as it fails, where its program goes on behind the failure. The part of a unit is the one
    /// at which its program stands by the law `later_units_stand_at_their_parts`.
    pub fn move_of_branch(&self, unit: Id) -> Result<Move, AllocError>
        requires { HaveUnit self.now unit }
        ensures { IfOk result (IsMoveOfBranch self.now unit) }
    {
        let held = self.held(unit);
        self.known.move_of_branch(&held.kind)
    }

    /// A unit has committed by the decision of this number, with this move.
    pub fn commit(&mut self, unit: Id, made: Move, number: u64) -> Result<(), AllocError>
        requires { HaveUnit self.old unit }
        ensures { OnOk result (HasCommitted unit made number self.old self.new) }
    {
        let at = place_named(self.units.as_slice(), self.rising, unit);
        let _held = self.units.remove(at);
        self.known.commit(made, number)?;
        Ok(())
    }

    /// A unit of a later part has failed, and its program has gone on behind the failure by this move and the decision of this
    /// number.
    pub fn branch(&mut self, unit: Id, made: Move, number: u64) -> Result<(), AllocError>
        requires { HaveUnit self.old unit }
        ensures { OnOk result (HasBranched unit made number self.old self.new) }
    {
        let at = place_named(self.units.as_slice(), self.rising, unit);
        let _held = self.units.remove(at);
        self.known.commit(made, number)?;
        Ok(())
    }
}
