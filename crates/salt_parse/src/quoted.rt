//! What stands between the quotes of a text, with each double quote once.

ghost use Rattle.std.specs.Prelude.{◌≡◌, ◌<◌, [], ◌∷◌, IfOk, MatchOption, length};
ghost use Rattle.std.specs.List.{list_all};
ghost use Rattle.salt_ast.specs.Words.{is_no_quote};
ghost use Rattle.salt_ast.specs.Symbols.{undoubled};

use std::alloc::{AllocError, Global};

fn is_no_quote(byte: u8) -> bool
    ensures { result ≡ is_no_quote byte }
{
    byte != b'\''
}

/// Whether no quote stands in the text, so that none is doubled.
fn is_plain(quoted: &[u8]) -> bool
    ensures { result ≡ list_all is_no_quote quoted.now }
{
    quoted.iter().all(|byte| is_no_quote(*byte))
}

/// The first byte of a text, and what stands behind it.
fn split_first(quoted: &[u8]) -> Option<(u8, &[u8])>
    ensures { MatchOption result (quoted.now ≡ []) (λ s. (undoubled quoted.now ≡ s.0 ∷ undoubled s.1.now) × (length s.1.now < length quoted.now)) }
{
    match quoted {
        [] => None,
        [b'\'', _, rest @ ..] => Some((b'\'', rest)),
        [first, rest @ ..] => Some((*first, rest)),
    }
}

/// How many bytes the text has.
pub fn content_len(quoted: &[u8]) -> usize
    ensures { result ≡ length (undoubled quoted.now) }
{
    if is_plain(quoted) {
        return quoted.len();
    }
    let mut count: usize = 0;
    let mut left = quoted;
    while let Some((_, rest)) = split_first(left) {
        count += 1;
        left = rest;
    }
    count
}

/// The bytes of the text.
pub fn content(alloc: Global, quoted: &[u8]) -> Result<Vec<u8>, AllocError>
    ensures { IfOk result (λ v. v.items ≡ undoubled quoted.now) }
{
    if is_plain(quoted) {
        return Vec::from_slice(alloc, quoted);
    }
    let mut content = Vec::new(alloc);
    let mut left = quoted;
    while let Some((byte, rest)) = split_first(left) {
        content.push(byte)?;
        left = rest;
    }
    Ok(content)
}
