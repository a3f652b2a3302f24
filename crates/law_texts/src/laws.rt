//! The laws, each on a function that does nothing.

ghost use Rattle.std.specs.Prelude.{◌++◌, ◌∷◌, ◌≡◌, [], List, false, ℕ};
ghost use Rattle.salt_ast.specs.Judgement.{is_table};
ghost use Rattle.salt_ast.specs.Texts.{statement_text};
ghost use Rattle.salt_ast.specs.declared.trees.Statement.{Statement};
ghost use Rattle.salt_ast.specs.declared.trees.TableDef.{TableDef};
ghost use Rattle.salt_model.specs.EventTexts.{event_line, event_text, story_text};
ghost use Rattle.salt_model.specs.Naming.{IsNaming};
ghost use Rattle.salt_model.specs.Printable.{IsPrintableStory, IsSpelled, IsSpelledTable};
ghost use Rattle.salt_model.specs.Words.{Every};
ghost use Rattle.salt_model.specs.declared.events.Event.{Event};
ghost use Rattle.law_texts.specs.Arrow.{behind_arrow};
ghost use Rattle.law_texts.specs.Below.{LawsBelow};
ghost use Rattle.law_texts.specs.EventLines.{Inline, event_lines, lines_text};

use salt_ast::{canonical_program, canonical_statement, canonical_table, sign_spellings};
use salt_parse::{one_statement, row_statement};

/// What the laws of the crates below say.
fn laws_below()
    ensures { LawsBelow }
{
    sign_spellings();
    canonical_program();
    canonical_statement();
    canonical_table();
    one_statement();
    row_statement();
}

/// A schema names its tables as long as each table that is added is spelled, and its name is new.
pub fn tables_are_named()
    ensures none { IsNaming [] }
    ensures more { (schema : List TableDef) (d : TableDef) → IsNaming schema → IsSpelledTable d → is_table schema d.name ≡ false
        → IsNaming (schema ++ d ∷ []) }
{}

/// Where a statement's text ends is told by the first arrow outside quotes, and the text tells the statement.
pub fn statement_before_arrow()
    ensures found { (st : Statement) (x : List ℕ) → IsSpelled st → behind_arrow (statement_text st ++ (32 ∷ 45 ∷ 62 ∷ x)) ≡ x }
    ensures one { (a b : Statement) (x y : List ℕ) → IsSpelled a → IsSpelled b
        → statement_text a ++ (32 ∷ 45 ∷ 62 ∷ x) ≡ statement_text b ++ (32 ∷ 45 ∷ 62 ∷ y)
        → (a ≡ b) × (x ≡ y) }
{
    laws_below();
}

/// An event's text is lines, none of which ends within, and a text is cut into lines in one way.
pub fn lines_of_event()
    ensures are { (schema : List TableDef) (e : Event) → event_text schema e ≡ lines_text (event_lines schema e) }
    ensures whole { (schema : List TableDef) (e : Event) → IsPrintableStory schema (e ∷ []) → Every Inline (event_lines schema e) }
    ensures one { (ls ms : List (List ℕ)) → Every Inline ls → Every Inline ms → lines_text ls ≡ lines_text ms → ls ≡ ms }
{
    laws_below();
}

/// One text that begins with an event's lines is of one event, each a printable story alone, and of one text behind it.
pub fn one_event()
    ensures { (schema : List TableDef) (a b : Event) (x y : List ℕ)
        → IsPrintableStory schema (a ∷ []) → IsPrintableStory schema (b ∷ [])
        → event_line schema a ++ (10 ∷ x) ≡ event_line schema b ++ (10 ∷ y)
        → (a ≡ b) × (x ≡ y) }
{
    laws_below();
}

/// A text that begins with the text of a story is, where it is one, the text of a story that begins with this one.
pub fn story_so_far()
    ensures { (schema : List TableDef) (a b : List Event) (x : List ℕ) → IsPrintableStory schema a → IsPrintableStory schema b
        → story_text schema a ++ x ≡ story_text schema b
        → (c : List Event) × (b ≡ a ++ c) × (x ≡ story_text schema c) }
{
    laws_below();
}

/// Under one schema no two printable stories have one text.
pub fn one_story()
    ensures { (schema : List TableDef) (a b : List Event) → IsPrintableStory schema a → IsPrintableStory schema b
        → story_text schema a ≡ story_text schema b → a ≡ b }
{
    laws_below();
}
