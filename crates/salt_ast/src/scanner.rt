//! From bytes to tokens.

ghost use Rattle.std.specs.Prelude.{◌≡◌, ℕ, List, [], ◌∷◌, ◌<◌, ◌≤◌, ◌+◌, ◌-◌, length, drop, IfOk, IfSome, Err, false, is_some};
ghost use Rattle.std.specs.List.{prefix_len};
ghost use Rattle.salt_ast.specs.Bytes.{is_blank, is_digit, is_letter, is_word, is_printable};
ghost use Rattle.salt_ast.specs.Pieces.{Piece, Lexes};
ghost use Rattle.salt_ast.specs.Scanning.{first_at, quoted_at, sign_at, lex, Gives};
ghost use Rattle.salt_ast.specs.TokenSpelling.{sign_of};
ghost use Rattle.salt_ast.specs.Spans.{pieces, AreInOrder};
ghost use Rattle.salt_ast.specs.declared.error.ScanErr.TheVariants.{Syntax};

use crate::error::ScanErr;
use crate::sign::Sign;
use crate::token::{Token, TokenKind, Tokens};
use sqlite_items::Items;
use std::alloc::Global;

/// Whether the byte is a space or a tab.
pub fn is_blank(b: u8) -> bool
    ensures { result ≡ is_blank b }
{
    b == b' ' || b == b'\t'
}

fn is_digit(b: u8) -> bool
    ensures { result ≡ is_digit b }
{
    b'0' <= b && b <= b'9'
}

fn is_letter(b: u8) -> bool
    ensures { result ≡ is_letter b }
{
    b'a' <= b && b <= b'z' || b'A' <= b && b <= b'Z' || b == b'_'
}

fn is_word(b: u8) -> bool
    ensures { result ≡ is_word b }
{
    is_letter(b) || is_digit(b)
}

fn is_printable(b: u8) -> bool
    ensures { result ≡ is_printable b }
{
    32 <= b && b <= 126
}

fn is_sign(byte: u8) -> bool
    ensures { result ≡ is_some (sign_of (byte ∷ [])) }
{
    Sign::of_byte(byte).is_some()
}

fn are_sign(first: u8, second: u8) -> bool
    ensures { result ≡ is_some (sign_of (first ∷ second ∷ [])) }
{
    Sign::of_pair(first, second).is_some()
}

#[tactic(auto, using(crate::proofs::Quoted::lengths))]
fn word_len(bytes: &[u8]) -> usize
    ensures value { result ≡ prefix_len is_word bytes.now }
    ensures within { result ≤ length bytes.now }
{
    bytes.iter().take_while(|b| is_word(**b)).count()
}

#[tactic(auto, using(crate::proofs::Quoted::lengths))]
fn int_len(bytes: &[u8]) -> usize
    ensures value { result ≡ prefix_len is_digit bytes.now }
    ensures within { result ≤ length bytes.now }
{
    bytes.iter().take_while(|b| is_digit(**b)).count()
}

/// How many bytes of a text stand behind its first quote, the last quote included.
fn quoted_len(bytes: &[u8]) -> Option<usize>
    ensures value { result ≡ quoted_at false bytes.now }
    ensures within { IfSome result (λ n. n ≤ length bytes.now) }
{
    let mut after_quote = false;
    for (i, b) in bytes.iter().enumerate() {
        if after_quote {
            if *b != b'\'' {
                return Some(i);
            }
            after_quote = false;
        } else if *b == b'\'' {
            after_quote = true;
        } else if !is_printable(*b) {
            return None;
        }
    }
    if after_quote { Some(bytes.len()) } else { None }
}

/// How many bytes are of the sign at the front, the longest that stands there.
fn sign_len(bytes: &[u8]) -> Option<usize>
    ensures value { result ≡ sign_at bytes.now }
    ensures within { IfSome result (λ n. (0 < n) × (n ≤ length bytes.now)) }
{
    match bytes {
        [a, b, ..] if are_sign(*a, *b) => Some(2),
        [a, ..] if is_sign(*a) => Some(1),
        _ => None,
    }
}

/// The kind and the length of the token at the front.
#[tactic(auto, unfolding(crate::specs::Scanning::first_at))]
pub fn first(bytes: &[u8]) -> Option<(TokenKind, usize)>
    ensures value { result ≡ first_at bytes.now }
    ensures within { IfSome result (λ t. (0 < t.1) × (t.1 ≤ length bytes.now)) }
{
    let [b, rest @ ..] = bytes else {
        return None;
    };
    if is_letter(*b) {
        Some((TokenKind::Word, word_len(rest) + 1))
    } else if is_digit(*b) {
        Some((TokenKind::Int, int_len(rest) + 1))
    } else if *b == b'\'' {
        let len = quoted_len(rest)?;
        Some((TokenKind::Text, len + 1))
    } else {
        let len = sign_len(bytes)?;
        Some((TokenKind::Sign, len))
    }
}

/// The tokens of the bytes, which are a whole row of tokens; the time is linear in the bytes.
///
/// `Syntax` where the bytes are no row of tokens, and `Memory` where memory runs out.
pub fn scan(alloc: Global, bytes: &[u8]) -> Result<Tokens, ScanErr>
    ensures found { IfOk result (λ ts. Lexes bytes.now (pieces bytes.now ts)) }
    ensures spans { IfOk result (λ ts. AreInOrder 0 ts (length bytes.now)) }
    ensures syntax { result ≡ Err Syntax → (ps : List Piece) → ¬ (Lexes bytes.now ps) }
{
    tokens_of(alloc, bytes)
}

fn tokens_of(alloc: Global, bytes: &[u8]) -> Result<Tokens, ScanErr>
    ensures reads { Gives bytes.now result (lex 0 bytes.now) }
    ensures spans { IfOk result (λ ts. AreInOrder 0 ts (length bytes.now)) }
{
    let mut tokens = Items::new(alloc);
    let mut at = 0;
    while at < bytes.len() {
        if is_blank(bytes[at]) {
            at += 1;
        } else {
            let Some((kind, len)) = first(&bytes[at..]) else {
                return Err(ScanErr::Syntax);
            };
            tokens.push(Token { kind, at, len })?;
            at += len;
        }
    }
    Ok(tokens)
}
