//! The signs and their spellings.

ghost use Rattle.std.specs.Prelude.{◌≡◌, [], ◌∷◌};
ghost use Rattle.salt_ast.specs.Bytes.{ends_pair};
ghost use Rattle.salt_ast.specs.TokenSpelling.{sign_spelling, sign_of};

use crate::same::same_bytes;

/// A sign of one byte or of two.
#[derive(Clone, Copy, Debug, PartialEq, Eq)]
pub enum Sign {
    Open,
    Close,
    OpenBrace,
    CloseBrace,
    Comma,
    Semicolon,
    Colon,
    At,
    Dot,
    Star,
    Plus,
    Minus,
    Bars,
    Equal,
    Unequal,
    Less,
    AtMost,
    Greater,
    AtLeast,
}

const ALL: [Sign; 19] = [
    Sign::Open,
    Sign::Close,
    Sign::OpenBrace,
    Sign::CloseBrace,
    Sign::Comma,
    Sign::Semicolon,
    Sign::Colon,
    Sign::At,
    Sign::Dot,
    Sign::Star,
    Sign::Plus,
    Sign::Minus,
    Sign::Bars,
    Sign::Equal,
    Sign::Unequal,
    Sign::Less,
    Sign::AtMost,
    Sign::Greater,
    Sign::AtLeast,
];

/// Whether a sign of two bytes ends in this one.
fn ends_pair(b: u8) -> bool
    ensures { result ≡ ends_pair b }
{
    b == b'|' || b == b'>' || b == b'='
}

impl Sign {
    /// The sign's bytes.
    pub fn spelling(self) -> &'static [u8]
        ensures { result.now ≡ sign_spelling self }
    {
        match self {
            Sign::Open => b"(",
            Sign::Close => b")",
            Sign::OpenBrace => b"{",
            Sign::CloseBrace => b"}",
            Sign::Comma => b",",
            Sign::Semicolon => b";",
            Sign::Colon => b":",
            Sign::At => b"@",
            Sign::Dot => b".",
            Sign::Star => b"*",
            Sign::Plus => b"+",
            Sign::Minus => b"-",
            Sign::Bars => b"||",
            Sign::Equal => b"=",
            Sign::Unequal => b"<>",
            Sign::Less => b"<",
            Sign::AtMost => b"<=",
            Sign::Greater => b">",
            Sign::AtLeast => b">=",
        }
    }

    /// The sign that the byte is.
    pub fn of_byte(byte: u8) -> Option<Sign>
        ensures { result ≡ sign_of (byte ∷ []) }
    {
        match byte {
            b'(' => Some(Sign::Open),
            b')' => Some(Sign::Close),
            b'{' => Some(Sign::OpenBrace),
            b'}' => Some(Sign::CloseBrace),
            b',' => Some(Sign::Comma),
            b';' => Some(Sign::Semicolon),
            b':' => Some(Sign::Colon),
            b'@' => Some(Sign::At),
            b'.' => Some(Sign::Dot),
            b'*' => Some(Sign::Star),
            b'+' => Some(Sign::Plus),
            b'-' => Some(Sign::Minus),
            b'=' => Some(Sign::Equal),
            b'<' => Some(Sign::Less),
            b'>' => Some(Sign::Greater),
            _ => Sign::among_all(&[byte]),
        }
    }

    /// The sign that the two bytes are.
    #[tactic(auto, using(crate::proofs::SpellingLaws::no_pair))]
    pub fn of_pair(first: u8, second: u8) -> Option<Sign>
        ensures { result ≡ sign_of (first ∷ second ∷ []) }
    {
        if ends_pair(second) {
            Sign::among_all(&[first, second])
        } else {
            None
        }
    }

    /// The sign that the bytes are.
    #[tactic(auto, using(crate::proofs::SpellingLaws::of_few))]
    pub fn of_bytes(bytes: &[u8]) -> Option<Sign>
        ensures { result ≡ sign_of bytes.now }
    {
        match bytes {
            [byte] => Sign::of_byte(*byte),
            [first, second] => Sign::of_pair(*first, *second),
            _ => Sign::among_all(bytes),
        }
    }

    #[tactic(auto, unfolding(crate::specs::TokenSpelling::sign_of))]
    fn among_all(bytes: &[u8]) -> Option<Sign>
        ensures { result ≡ sign_of bytes.now }
    {
        ALL.iter()
            .copied()
            .find(|sign| same_bytes(bytes, sign.spelling()))
    }
}
