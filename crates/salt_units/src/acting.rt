//! A statement done over the tables of a view under changes.

ghost use Rattle.std.specs.Prelude.{◌≡◌, IfOk};
ghost use Rattle.salt_eval.specs.Effects.{IsEffect};
ghost use Rattle.salt_eval.specs.Scans.{IsKeyed};
ghost use Rattle.salt_eval.specs.Views.{CountsFaults};
ghost use Rattle.law_states.specs.Overlays.{AreInOrder, edits_of, with_edits};
ghost use Rattle.salt_model.specs.Statements.{outcome_of};
ghost use Rattle.salt_units.specs.Acting.{HaveTheirKeys};

use crate::overlay::{Cursor, Overlay};
use salt_ast::Statement;
use salt_eval::{RowView, ViewErr, execute};
use salt_model::{Answer, Vars};
use salt_schema::Schema;
use salt_values::{Change, Changes};
use std::alloc::Global;
use std::collections::VecDeque;

fn execute_over<V: RowView>(
    alloc: Global,
    overlay: &mut Overlay<'_, '_, V>,
    schema: &Schema,
    vars: &Vars,
    statement: &Statement,
) -> Result<(Answer, Changes), ViewErr>
    requires { IsKeyed (with_edits (edits_of overlay.old.changes.now.items) (V.tables overlay.old.view.now)) }
    ensures done { IfOk result (λ effect. IsEffect effect (outcome_of schema.now (with_edits (edits_of overlay.old.changes.now.items) (V.tables overlay.old.view.now)) vars.now statement.now)) }
    ensures same_reference { overlay.new.view.ghost_name ≡ overlay.old.view.ghost_name }
    ensures kept { V.tables overlay.new.view.now ≡ V.tables overlay.old.view.now }
    ensures source { V.shown_from overlay.new.view.now ≡ V.shown_from overlay.old.view.now }
    ensures faults { CountsFaults (V.faults overlay.old.view.now) (V.faults overlay.new.view.now) result }
{
    execute(alloc, overlay, schema, vars, statement)
}

/// What a statement answers and changes over the tables of a view under changes. `Fault` where the view counted one.
pub fn execute_under<V: RowView>(
    alloc: Global,
    view: &mut V,
    changes: &VecDeque<Change>,
    schema: &Schema,
    vars: &Vars,
    statement: &Statement,
) -> Result<(Answer, Changes), ViewErr>
    requires in_order { AreInOrder (edits_of changes.now.items) }
    requires have_keys { HaveTheirKeys (edits_of changes.now.items) }
    requires keyed { IsKeyed (V.tables view.old) }
    ensures done { IfOk result (λ effect. IsEffect effect (outcome_of schema.now (with_edits (edits_of changes.now.items) (V.tables view.old)) vars.now statement.now)) }
    ensures kept { V.tables view.new ≡ V.tables view.old }
    ensures source { V.shown_from view.new ≡ V.shown_from view.old }
    ensures faults { CountsFaults (V.faults view.old) (V.faults view.new) result }
{
    let mut overlay = Overlay {
        alloc,
        view,
        changes,
        cursor: Cursor::new(),
    };
    execute_over(alloc, &mut overlay, schema, vars, statement)
}
