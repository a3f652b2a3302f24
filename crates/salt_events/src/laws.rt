//! What reading gives.

ghost use Rattle.std.specs.Prelude.{◌≡◌, List, Option, Some, ℕ};
ghost use Rattle.salt_ast.specs.declared.trees.TableDef.{TableDef};
ghost use Rattle.salt_events.specs.Items.{item_in};
ghost use Rattle.salt_events.specs.Lines.{GoesOn, event_in, line_in};
ghost use Rattle.salt_model.specs.EventTexts.{ShowsNothing, event_line};
ghost use Rattle.salt_model.specs.Naming.{IsNaming};
ghost use Rattle.salt_model.specs.Printable.{IsPrintable, IsPrintableItem};
ghost use Rattle.salt_model.specs.Sized.{IsSizedItem};
ghost use Rattle.salt_model.specs.declared.events.Event.{Event};
ghost use Rattle.salt_model.specs.declared.shown.Item.{Item};
ghost use Rattle.law_texts.specs.EventLines.{item_line};

use law_definitions::{definitions_are_read, statements_are_read};
use law_texts::statement_before_arrow;

/// An event that shows nothing is read exactly of its own line.
pub fn events_are_read()
    ensures read { (schema : List TableDef) (e : Event) → ShowsNothing e → IsPrintable schema e → event_in (event_line schema e) ≡ Some e }
    ensures back { (schema : List TableDef) (line : List ℕ) (e : Event) → event_in line ≡ Some e
        → (line ≡ event_line schema e) × ShowsNothing e × IsPrintable schema e }
{
    definitions_are_read();
    statements_are_read();
    statement_before_arrow();
}

/// An item is read exactly of its own line.
pub fn items_are_read()
    ensures read { (schema : List TableDef) (i : Item) → IsNaming schema → IsPrintableItem schema i → IsSizedItem i
        → item_in schema (item_line schema i) ≡ Some i }
    ensures back { (schema : List TableDef) (line : List ℕ) (i : Item) → item_in schema line ≡ Some i
        → (line ≡ item_line schema i) × IsPrintableItem schema i × IsSizedItem i }
{}

/// A line is read exactly where it goes on with a story, behind the items whose own line is still to come.
pub fn lines_are_read()
    ensures read { (schema : List TableDef) (items after : List Item) (line : List ℕ) (told : Option Event) → IsNaming schema
        → GoesOn schema items line (after, told) → line_in schema items line ≡ Some (after, told) }
    ensures back { (schema : List TableDef) (items after : List Item) (line : List ℕ) (told : Option Event)
        → line_in schema items line ≡ Some (after, told) → GoesOn schema items line (after, told) }
{
    definitions_are_read();
    statements_are_read();
    statement_before_arrow();
}
