//! Tokens, for those who read more than statements and tables.

ghost use Rattle.std.specs.Prelude.{◌≡◌, ◌≢◌, Err, IfOk, List, length};
ghost use Rattle.salt_ast.specs.declared.limit.LimitName.{LimitName};
ghost use Rattle.salt_parse.specs.declared.error.ParseErr.TheVariants.{Limit, Syntax};
ghost use Rattle.salt_ast.specs.Pieces.{Lexes, Piece};
ghost use Rattle.salt_ast.specs.Spans.{AreInOrder, pieces};

use crate::error::ParseErr;
use salt_ast::{Tokens, scan};
use std::alloc::Global;

/// Each token of the bytes, by its kind and its place.
///
/// `Syntax` exactly where the bytes are no row of tokens, never `Limit`, and else `Memory` where memory runs out.
pub fn tokens(alloc: Global, bytes: &[u8]) -> Result<Tokens, ParseErr>
    ensures found { IfOk result (λ ts. Lexes bytes.now (pieces bytes.now ts)) }
    ensures spans { IfOk result (λ ts. AreInOrder 0 ts (length bytes.now)) }
    ensures syntax { result ≡ Err Syntax → (ps : List Piece) → ¬ (Lexes bytes.now ps) }
    ensures limit { (l : LimitName) → result ≢ Err (Limit l) }
{
    Ok(scan(alloc, bytes)?)
}
