//! What holds of canonical texts.

ghost use Rattle.std.specs.Prelude.{◌≡◌, List, None, ℕ};
ghost use Rattle.salt_ast.specs.Limits.{statement_limit, table_limit};
ghost use Rattle.salt_ast.specs.ProgramLimits.{program_limit};
ghost use Rattle.salt_ast.specs.ProgramTexts.{program_text};
ghost use Rattle.salt_ast.specs.Spelling.{SpellsProgram, SpellsStatement, SpellsTable};
ghost use Rattle.salt_ast.specs.Spelling.{SpellsShallowProgram, SpellsShallowStatement, SpellsShallowTable};
ghost use Rattle.salt_ast.specs.TokenLaws.{TokenLaws};
ghost use Rattle.salt_ast.specs.Texts.{statement_text, table_text};
ghost use Rattle.salt_ast.specs.declared.programs.ProgramDef.{ProgramDef};
ghost use Rattle.salt_ast.specs.declared.trees.Statement.{Statement};
ghost use Rattle.salt_ast.specs.declared.trees.TableDef.{TableDef};

use crate::token_laws::{keyword_spellings, quoted_text, sign_spellings, written_number};

/// How keywords, signs, texts and numbers are written, as the crate of tokens says.
fn written_tokens()
    ensures { TokenLaws }
{
    keyword_spellings();
    sign_spellings();
    quoted_text();
    written_number();
}

/// The canonical text of a statement that some bytes spell, and that passes no limit by its tree,
/// spells this statement, with no more parentheses than the limit on depth.
pub fn canonical_statement()
    ensures { (bytes : List ℕ) (st : Statement) → SpellsStatement bytes st → statement_limit st ≡ None → SpellsShallowStatement (statement_text st) st }
{
    written_tokens();
}

/// The canonical text of a table that some bytes spell, and that passes no limit by its tree,
/// spells this table, with no more parentheses than the limit on depth.
pub fn canonical_table()
    ensures { (bytes : List ℕ) (d : TableDef) → SpellsTable bytes d → table_limit d ≡ None → SpellsShallowTable (table_text d) d }
{
    written_tokens();
}

/// The canonical text of a program that some bytes spell, and that passes no limit by its tree,
/// spells this program, with no more parentheses than the limit on depth.
pub fn canonical_program()
    ensures { (bytes : List ℕ) (p : ProgramDef) → SpellsProgram bytes p → program_limit p ≡ None → SpellsShallowProgram (program_text p) p }
{
    written_tokens();
}
