//! What holds of the texts of lines.

ghost use Rattle.std.specs.Prelude.{◌≡◌, List, ℕ};
ghost use Rattle.salt_ast.specs.Spelling.{SpellsLine};
ghost use Rattle.salt_ast.specs.declared.lines.Line.{Line};

use salt_ast::one_row;

/// No bytes spell two lines.
pub fn one_line()
    ensures { (bytes : List ℕ) (a b : Line) → SpellsLine bytes a → SpellsLine bytes b → a ≡ b }
{
    one_row();
}
