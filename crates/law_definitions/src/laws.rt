//! The law, on a function that does nothing.

ghost use Rattle.law_definitions.specs.Texts.{IsStatementText, IsTextOf, definition_in, statement_in};
ghost use Rattle.salt_ast.specs.declared.trees.Statement.{Statement};
ghost use Rattle.salt_model.specs.Kept.{Definition};
ghost use Rattle.std.specs.Prelude.{List, Some, ℕ, ◌↔◌, ◌≡◌};

use salt_ast::{canonical_program, canonical_statement, canonical_table, quoted_text};

/// A text is read as a definition exactly where it is its canonical text, some text spells it, and no limit is passed.
pub fn definitions_are_read()
    ensures { (text : List ℕ) (d : Definition) → (definition_in text ≡ Some d) ↔ IsTextOf d text }
{
    canonical_table();
    canonical_program();
    quoted_text();
}

/// A text is read as a statement exactly where it is its canonical text, some text spells it, and no limit is passed.
pub fn statements_are_read()
    ensures { (text : List ℕ) (st : Statement) → (statement_in text ≡ Some st) ↔ IsStatementText st text }
{
    canonical_statement();
    quoted_text();
}
