//! The law of keys, on a function that does nothing.

ghost use Rattle.std.specs.Prelude.{◌≡◌, List, None, true};
ghost use Rattle.salt_ast.specs.Judgement.{statement_fault};
ghost use Rattle.salt_ast.specs.declared.trees.Scope.{Scope};
ghost use Rattle.salt_ast.specs.declared.trees.Statement.{Statement};
ghost use Rattle.salt_ast.specs.declared.trees.TableDef.{TableDef};
ghost use Rattle.salt_eval.specs.Scans.{IsKeyed};
ghost use Rattle.law_states.specs.Overlays.{AreInOrder, Edit, put_all, with_edits};
ghost use Rattle.salt_model.specs.Statements.{outcome_of};
ghost use Rattle.salt_model.specs.Tables.{Tables};
ghost use Rattle.salt_model.specs.Words.{Every};
ghost use Rattle.salt_model.specs.declared.vars.Binding.{Binding};
ghost use Rattle.salt_units.specs.Acting.{HaveTheirKeys, leaves_keys};
ghost use Rattle.salt_units.specs.Edited.{HasItsKey};
ghost use Rattle.salt_values.specs.declared.change.Change.{Change};

/// Rows stay at the places of their keys. A statement that is not refused sets no key; the changes of one that sets none put
/// rows under their keys; put into edits that do so, they leave such edits; and these leave each row of the tables at the
/// place of its key.
pub fn rows_stay_at_their_keys()
    ensures judged { (schema : List TableDef) (scope : Scope) (st : Statement) → statement_fault schema scope st ≡ None
        → leaves_keys schema st ≡ true }
    ensures changes { (schema : List TableDef) (es : Tables) (vars : List Binding) (st : Statement) → leaves_keys schema st ≡ true
        → IsKeyed es → Every HasItsKey (outcome_of schema es vars st).changes }
    ensures edits { (cs : List Change) (ds : List Edit) → Every HasItsKey cs → HaveTheirKeys ds → HaveTheirKeys (put_all cs ds) }
    ensures tables { (ds : List Edit) (es : Tables) → AreInOrder ds → HaveTheirKeys ds → IsKeyed es → IsKeyed (with_edits ds es) }
{}
