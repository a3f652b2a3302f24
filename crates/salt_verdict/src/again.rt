//! A unit's statements done again.

ghost use Rattle.salt_eval.specs.Scans.{IsKeyed};
ghost use Rattle.salt_model.specs.Statements.{serial};
ghost use Rattle.salt_verdict.specs.Again.{GivesOutcome};
ghost use Rattle.std.specs.Prelude.{IfOk, ◌≡◌};

use law_states::edits_make_the_tables;
use salt_ast::{Shared, Statement};
use salt_audit::has_failed;
use salt_eval::{RowView, ViewErr};
use salt_model::{Answer, Vars};
use salt_schema::Schema;
use salt_units::{OpenUnit, leaves_keys};
use salt_values::Id;
use sqlite_items::Items;
use std::alloc::Global;

/// What doing statements again gives.
#[derive(Drop)]
pub struct Again {
    pub answers: Items<Answer>,
    /// Its variables and changes.
    pub unit: OpenUnit,
}

/// Does the statements of a unit that began with these variables one after another on the rows that a view shows, up to the first that fails. No
/// statement that is formed sets a key; `Memory` where one does.
pub fn do_again<V: RowView>(
    alloc: Global,
    schema: &Schema,
    view: &mut V,
    vars: Vars,
    done: &[Shared<Statement>],
) -> Result<Again, ViewErr>
    requires { IsKeyed (V.tables view.old) }
    ensures { IfOk result (λ again. GivesOutcome again (serial schema.now (V.tables view.old) vars done.now)) }
{
    edits_make_the_tables();
    let mut unit = OpenUnit::new(alloc, Id { boot: 0, seq: 0 }, vars);
    let mut answers = Items::new(alloc);
    let mut left = done;
    'statements: loop {
        let [statement, rest @ ..] = left else {
            return Ok(Again { answers, unit });
        };
        if !leaves_keys(schema, statement.get()) {
            return Err(ViewErr::Memory);
        }
        let answer = unit.act(alloc, view, schema, statement.get())?;
        let failed = has_failed(&answer);
        answers.push(answer)?;
        if failed {
            return Ok(Again { answers, unit });
        }
        left = rest;
    }
}
