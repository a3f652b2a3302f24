//! Tokens, by their kinds and places.

use sqlite_items::Items;

/// What kind of token some bytes are.
#[derive(Clone, Copy, Debug, PartialEq, Eq)]
pub enum TokenKind {
    /// A keyword or a name: a letter or `_`, then letters, digits and `_`.
    Word,
    /// Digits.
    Int,
    /// Printable bytes between single quotes, with each quote inside doubled.
    Text,
    /// A sign of one byte or of two.
    Sign,
}

/// A token of some bytes: the `len` bytes at the place `at`.
#[derive(Clone, Copy, Debug)]
pub struct Token {
    pub kind: TokenKind,
    pub at: usize,
    pub len: usize,
}

/// Tokens, in the order of the bytes.
pub type Tokens = Items<Token>;
