//! The law of statements, on a function that does nothing.

ghost use Rattle.std.specs.Prelude.{◌≡◌, List};
ghost use Rattle.salt_ast.specs.declared.trees.Statement.{Statement};
ghost use Rattle.salt_ast.specs.declared.trees.TableDef.{TableDef};
ghost use Rattle.salt_model.specs.Reaches.{reach};
ghost use Rattle.salt_model.specs.Statements.{outcome_of};
ghost use Rattle.salt_model.specs.Tables.{Tables};
ghost use Rattle.salt_model.specs.declared.vars.Binding.{Binding};
ghost use Rattle.salt_eval.specs.Frames.{AgreeOn};

/// A statement sees the rows of its reach and no others: over tables that agree there it answers, changes and keeps in its
/// variables the same.
pub fn statements_see_their_reach()
    ensures { (schema : List TableDef) (vars : List Binding) (st : Statement) (a b : Tables) → AgreeOn (reach schema vars st) a b
        → outcome_of schema a vars st ≡ outcome_of schema b vars st }
{}
