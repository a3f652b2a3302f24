//! What holds of rows of tokens and of spellings, for those who print them.

ghost use Rattle.std.specs.Prelude.{◌≡◌, ◌<◌, ◌^◌, ℕ, List, map, Some};
ghost use Rattle.std.specs.Fmt.{decimal};
ghost use Rattle.salt_ast.specs.Bytes.{lower};
ghost use Rattle.salt_ast.specs.Pieces.{Piece, IsToken, Lexes, quoted};
ghost use Rattle.salt_ast.specs.TokenSpelling.{keyword_of, keyword_spelling, sign_of, sign_spelling};
ghost use Rattle.salt_ast.specs.Symbols.{HasSymbols, Symbols, int, symbol_by, text};
ghost use Rattle.salt_ast.specs.declared.keyword.Keyword.{Keyword};
ghost use Rattle.salt_ast.specs.declared.sign.Sign.{Sign};
ghost use Rattle.salt_ast.specs.declared.token.TokenKind.TheVariants.{Int, Text, Word};

/// No bytes are two rows of tokens, and so none stand for two rows of symbols.
pub fn one_row()
    ensures symbols { (bs : List ℕ) (r s : Symbols) → HasSymbols bs r → HasSymbols bs s → r ≡ s }
    ensures pieces { (bs : List ℕ) (ps qs : List Piece) → Lexes bs ps → Lexes bs qs → ps ≡ qs }
{}

/// A keyword is a word in small letters, and is what it is spelled like; no other word is that keyword.
pub fn keyword_spellings()
    ensures words { (k : Keyword) → IsToken Word (keyword_spelling k) }
    ensures small { (k : Keyword) → map lower (keyword_spelling k) ≡ keyword_spelling k }
    ensures read { (k : Keyword) → keyword_of (keyword_spelling k) ≡ Some k }
    ensures only { (bs : List ℕ) (k : Keyword) → keyword_of bs ≡ Some k → map lower bs ≡ keyword_spelling k }
{}

/// A sign is what it is spelled like.
pub fn sign_spellings()
    ensures { (s : Sign) → sign_of (sign_spelling s) ≡ Some s }
{}

/// A text in quotes stands for the text.
pub fn quoted_text()
    ensures { (content : List ℕ) → symbol_by Text (quoted content) ≡ text content }
{}

/// A number below 2^64 that is written without leading zeros is a token that stands for it.
pub fn written_number()
    ensures tokens { (n : ℕ) → n < 2 ^ 64 → IsToken Int (decimal n) }
    ensures read { (n : ℕ) → n < 2 ^ 64 → symbol_by Int (decimal n) ≡ int n }
{}
