//! What an open unit asks for.

ghost use Rattle.law_states.specs.OpenUnits.{UnitState};
ghost use Rattle.std.specs.Option.{option_copied};
ghost use Rattle.std.specs.Prelude.{IfOk, ◌≡◌};

use crate::books::Books;
use crate::kinds::{family_of, program_of};
use salt_ast::{Line, Shared, Statement};
use salt_model::{Family, Reach};
use salt_values::{Id, TryCopy};
use sqlite_items::Boxed;
use std::alloc::{AllocError, Global};

/// An open unit's next statement, and what that would reach.
#[derive(Drop)]
pub struct Asking {
    pub unit: Id,
    /// The BASE program of the unit, if it is of one.
    pub base: Option<Id>,
    pub family: Family,
    pub statement: Shared<Statement>,
    pub reach: Option<Boxed<Reach>>,
}

/// A reach in a box, since what is asked is moved from hand to hand.
fn boxed(alloc: Global, reach: Option<Reach>) -> Result<Option<Boxed<Reach>>, AllocError>
    ensures { IfOk result (λ made. made ≡ reach) }
{
    match reach {
        Some(reach) => Ok(Some(Boxed::new(alloc, reach)?)),
        None => Ok(None),
    }
}

/// A reach out of its box.
pub fn unboxed(reach: Option<Boxed<Reach>>) -> Option<Reach>
    ensures { result ≡ reach }
{
    match reach {
        Some(reach) => Some(reach.into_inner()),
        None => None,
    }
}

/// A reach in its box.
pub fn lent(reach: &Option<Boxed<Reach>>) -> Option<&Reach>
    ensures { option_copied result ≡ reach.now }
{
    match reach {
        Some(reach) => Some(reach.get()),
        None => None,
    }
}

impl Books {
    ghost use Rattle.salt_books.specs.Asking.{IsAsked};
    ghost use Rattle.salt_books.specs.Books.{AreBooks};

    /// What the unit of a name asks for next in a line, if it is open and asks.
    pub fn asking(&self, line: &Line, unit: Id) -> Result<Option<Asking>, AllocError>
        ensures { IfOk result (λ asking. (s : UnitState) → AreBooks self.now s → s.line ≡ line.now → IsAsked s unit asking) }
    {
        let Some(held) = self.unit_named(unit) else {
            return Ok(None);
        };
        let Some(statement) = self.asks_next(held, line) else {
            return Ok(None);
        };
        Ok(Some(Asking {
            unit,
            base: program_of(&held.kind),
            family: family_of(&held.kind),
            statement: statement.copy(self.alloc)?,
            reach: boxed(self.alloc, self.reach(held, statement.get())?)?,
        }))
    }
}
