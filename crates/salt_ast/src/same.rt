//! Whether two rows of bytes are the same.

ghost use Rattle.std.specs.Prelude.{◌≡◌, map};
ghost use Rattle.salt_ast.specs.Bytes.{lower};
ghost use Rattle.salt_ast.specs.TokenSpelling.{same_bytes};

/// A capital letter in small.
pub fn lower(b: u8) -> u8
    ensures { result ≡ lower b }
{
    if b'A' <= b && b <= b'Z' { b + 32 } else { b }
}

/// Whether the bytes are the spelling, with capital letters read in small.
pub fn same_in_any_case(bytes: &[u8], spelling: &[u8]) -> bool
    ensures { result ≡ same_bytes (map lower bytes.now) spelling.now }
{
    let [first, rest @ ..] = bytes else {
        return spelling.is_empty();
    };
    let [letter, letters @ ..] = spelling else {
        return false;
    };
    lower(*first) == *letter && same_in_any_case(rest, letters)
}

/// Whether the bytes are those of the spelling.
pub fn same_bytes(bytes: &[u8], spelling: &[u8]) -> bool
    ensures { result ≡ same_bytes bytes.now spelling.now }
{
    bytes == spelling
}
