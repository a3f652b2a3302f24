//! The laws, each on a function that does nothing.

ghost use Rattle.salt_ast.specs.declared.trees.TableDef.{TableDef};
ghost use Rattle.salt_model.specs.After.{kept};
ghost use Rattle.salt_model.specs.EventTexts.{story_text};
ghost use Rattle.salt_model.specs.Kept.{WellKept, schema_of};
ghost use Rattle.salt_model.specs.Played.{IsPlayed};
ghost use Rattle.salt_model.specs.Trace.{Trace, start_of, story_of, ◌says◌};
ghost use Rattle.salt_model.specs.declared.events.Event.{Event};
ghost use Rattle.law_types.specs.Growing.{Grows};
ghost use Rattle.law_types.specs.Naming.{IsStoryOf};
ghost use Rattle.std.specs.Prelude.{List, length, ◌++◌, ◌≡◌};

/// An event leaves each table with its number, and may define one more.
pub fn schemas_grow()
    ensures { (trace : Trace) (e : Event) → Grows (schema_of (kept trace)) (schema_of (kept (trace says e))) }
{}

/// The locks that the story of a played trace shows are of tables that are defined.
pub fn shown_locks_are_of_tables()
    ensures { (trace : Trace) → IsPlayed trace → WellKept (start_of trace).kept
        → IsStoryOf (length (schema_of (kept trace))) (story_of trace) }
{}

/// A story whose locks are of tables of a schema reads the same when there are more tables.
pub fn stories_read_the_same()
    ensures { (schema more : List TableDef) (es : List Event) → IsStoryOf (length schema) es
        → story_text (schema ++ more) es ≡ story_text schema es }
{}
