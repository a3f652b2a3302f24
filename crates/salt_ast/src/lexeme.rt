//! What tokens stand for.

ghost use Rattle.std.specs.Prelude.{◌≡◌, ◌≤◌, Err, IfOk, length, min, vec_len};
ghost use Rattle.std.specs.Str.Parse.{digits_value};
ghost use Rattle.salt_ast.specs.Bytes.{is_digit};
ghost use Rattle.salt_ast.specs.Pieces.{IsToken, EachPasses};
ghost use Rattle.salt_ast.specs.Symbols.{HasSymbols, Symbols, between, largest_int, symbols_in, symbol, symbol_by};
ghost use Rattle.salt_ast.specs.declared.error.ScanErr.TheVariants.{Syntax};

use crate::error::ScanErr;
use crate::keyword::Keyword;
use crate::scanner::{first, is_blank};
use crate::sign::Sign;
use crate::token::TokenKind;
use std::alloc::Global;

/// What a token stands for.
#[derive(Clone, Copy, Debug)]
pub enum Lexeme<'a> {
    /// A keyword, whatever its letters' case.
    Key(Keyword),
    /// A name, as it is written.
    Name(&'a [u8]),
    /// A number, where 2^64 - 1 is every number from there on.
    Int(u64),
    /// What stands between the quotes of a text, with each quote still doubled.
    Text(&'a [u8]),
    /// A sign.
    Sign(Sign),
}

/// The number that the digits write, or 2^64 - 1 where it is larger.
fn number(digits: &[u8]) -> u64
    requires { EachPasses is_digit digits.now }
    ensures { result ≡ min (digits_value 10 digits.now) largest_int }
{
    let mut n: u64 = 0;
    for digit in digits {
        n = n.saturating_mul(10).saturating_add((*digit - b'0') as u64);
    }
    n
}

/// What stands between the first byte and the last.
fn inside(bytes: &[u8]) -> &[u8]
    ensures { result.now ≡ between bytes.now }
{
    match bytes {
        [_, inner @ .., _] => inner,
        _ => &[],
    }
}

/// What a token stands for.
fn lexeme_of<'a>(kind: TokenKind, text: &'a [u8]) -> Lexeme<'a>
    requires { IsToken kind text.now }
    ensures { symbol result ≡ symbol_by kind text.now }
{
    match kind {
        TokenKind::Word => match Keyword::of_word(text) {
            Some(keyword) => Lexeme::Key(keyword),
            None => Lexeme::Name(text),
        },
        TokenKind::Int => Lexeme::Int(number(text)),
        TokenKind::Text => Lexeme::Text(inside(text)),
        TokenKind::Sign => Lexeme::Sign(Sign::of_bytes(text).unwrap_or(Sign::Dot)),
    }
}

/// What the tokens of the bytes stand for, one after the other; the time is linear in the bytes.
///
/// `Syntax` where the bytes are no row of tokens, and `Memory` where memory runs out.
pub fn lexemes<'a>(alloc: Global, bytes: &'a [u8]) -> Result<Vec<Lexeme<'a>>, ScanErr>
    ensures found { IfOk result (λ v. HasSymbols bytes.now (symbols_in v.items)) }
    ensures short { IfOk result (λ v. vec_len v ≤ length bytes.now) }
    ensures syntax { result ≡ Err Syntax → (r : Symbols) → ¬ (HasSymbols bytes.now r) }
{
    // few lines have more tokens than one for two bytes
    let mut lexemes = Vec::with_capacity(alloc, bytes.len() / 2 + 1)?;
    let mut at = 0;
    while at < bytes.len() {
        if is_blank(bytes[at]) {
            at += 1;
        } else {
            let Some((kind, len)) = first(&bytes[at..]) else {
                return Err(ScanErr::Syntax);
            };
            let text = &bytes[at..at + len];
            lexemes.push(lexeme_of(kind, text))?;
            at += len;
        }
    }
    Ok(lexemes)
}
