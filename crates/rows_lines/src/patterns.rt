//! Patterns of lines, and the lines that they stand for.

use salt_values::limits::LINE_MOST;
use std::alloc::{AllocError, Global};
use std::mem;

/// What stands between the marks.
pub fn pieces(alloc: Global, text: &[u8], mark: u8) -> Result<Vec<Vec<u8>>, AllocError> {
    let mut out = Vec::new(alloc);
    let mut piece = Vec::new(alloc);
    for byte in text {
        if *byte == mark {
            let whole = mem::replace(&mut piece, Vec::new(alloc));
            out.push(whole)?;
        } else {
            piece.push(*byte)?;
        }
    }
    out.push(piece)?;
    Ok(out)
}

/// The text with the bytes in the place of each `#`.
pub fn filled(alloc: Global, text: &[u8], bytes: &[u8]) -> Result<Vec<u8>, AllocError> {
    let mut out = Vec::new(alloc);
    for byte in text {
        if *byte == b'#' {
            out.extend_from_slice(bytes)?;
        } else {
            out.push(*byte)?;
        }
    }
    Ok(out)
}

/// Appends the bytes so many times.
fn add_times(text: &mut Vec<u8>, bytes: &[u8], times: usize) -> Result<(), AllocError> {
    for _ in 0..times {
        text.extend_from_slice(bytes)?;
    }
    Ok(())
}

/// The pattern, whose second, fourth and sixth piece stand there so many times.
pub fn repeated(alloc: Global, pattern: &[u8], times: usize) -> Result<Vec<u8>, AllocError> {
    let mut text = Vec::new(alloc);
    let mut is_repeated = false;
    for piece in &pieces(alloc, pattern, b'^')? {
        add_times(&mut text, piece, if is_repeated { times } else { 1 })?;
        is_repeated = !is_repeated;
    }
    Ok(text)
}

/// How often what is repeated stands in the longest line.
pub fn times_in(alloc: Global, pattern: &[u8]) -> Result<usize, AllocError> {
    let once = repeated(alloc, pattern, 0)?.len();
    let each = repeated(alloc, pattern, 1)?.len().saturating_sub(once);
    Ok(
        LINE_MOST
            .saturating_sub(once)
            .checked_div(each)
            .unwrap_or(0),
    )
}

/// Appends blanks up to the length of the longest line.
pub fn pad(line: &mut Vec<u8>) -> Result<(), AllocError> {
    for _ in line.len()..LINE_MOST {
        line.push(b' ')?;
    }
    Ok(())
}

/// The tokens, with the one at this place so many times.
pub fn with_times(
    alloc: Global,
    tokens: &[Vec<u8>],
    place: usize,
    times: usize,
) -> Result<Vec<u8>, AllocError> {
    let mut text = Vec::new(alloc);
    for (at, token) in tokens.iter().enumerate() {
        add_times(&mut text, token, if at == place { times } else { 1 })?;
    }
    Ok(text)
}

/// The tokens, with the one at this place behind the one that follows it.
pub fn exchanged(alloc: Global, tokens: &[Vec<u8>], place: usize) -> Result<Vec<u8>, AllocError> {
    let mut text = Vec::new(alloc);
    let mut held: &[u8] = b"";
    for (at, token) in tokens.iter().enumerate() {
        if at == place {
            held = token.as_slice();
        } else {
            text.extend_from_slice(token)?;
            text.extend_from_slice(held)?;
            held = b"";
        }
    }
    text.extend_from_slice(held)?;
    Ok(text)
}

/// The tokens of a line, each with the blank behind it.
pub fn tokens(alloc: Global, line: &[u8]) -> Result<Vec<Vec<u8>>, AllocError> {
    let mut tokens = Vec::new(alloc);
    for mut token in pieces(alloc, line, b' ')? {
        token.push(b' ')?;
        tokens.push(token)?;
    }
    Ok(tokens)
}
