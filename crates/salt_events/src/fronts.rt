//! What stands at the front of bytes.

ghost use Rattle.std.specs.Prelude.{◌≡◌, ◌≤◌, None, Some, MatchOption, IfSome, IfNone, drop, length, take};
ghost use Rattle.std.specs.Str.Parse.{digits_value};
ghost use Rattle.salt_events.specs.Fronts.{behind, behind_digits, digits_in, id_at, if_sized, number_at, numeral};
ghost use Rattle.salt_ast.specs.Bytes.{is_digit};
ghost use Rattle.salt_ast.specs.Pieces.{EachPasses};

use salt_values::Id;

/// What is behind the word, where the bytes begin with it.
pub fn behind<'a>(word: &[u8], bytes: &'a [u8]) -> Option<&'a [u8]>
    ensures { MatchOption result (behind word.now bytes.now ≡ None) (λ r. behind word.now bytes.now ≡ Some r.now) }
{
    let [first, more @ ..] = word else {
        return Some(bytes);
    };
    let [byte, rest @ ..] = bytes else {
        return None;
    };
    if *first != *byte {
        return None;
    }
    behind(more, rest)
}

fn is_digit(byte: u8) -> bool
    ensures { result ≡ is_digit byte }
{
    byte.is_ascii_digit()
}

/// How many digits are in front.
fn digit_count(bytes: &[u8]) -> usize
    ensures within { result ≤ length bytes.now }
    ensures digits { take result bytes.now ≡ digits_in bytes.now }
    ensures behind { drop result bytes.now ≡ behind_digits bytes.now }
{
    let mut count: usize = 0;
    while count < bytes.len() && is_digit(bytes[count]) {
        count += 1;
    }
    count
}

/// The number that the digits write, where it has 64 bits.
fn value(digits: &[u8]) -> Option<u64>
    requires { EachPasses is_digit digits.now }
    ensures { result ≡ if_sized (digits_value 10 digits.now) }
{
    let mut n: u64 = 0;
    for digit in digits {
        n = n.checked_mul(10)?.checked_add((*digit - b'0') as u64)?;
    }
    Some(n)
}

/// The number that the digits are printed of.
fn numeral(digits: &[u8]) -> Option<u64>
    requires { EachPasses is_digit digits.now }
    ensures { result ≡ numeral digits.now }
{
    match digits {
        [] => None,
        [b'0', _, ..] => None,
        _ => value(digits),
    }
}

/// The number in front, as it is printed, and what is behind it.
#[tactic(auto, unfolding(crate::specs::Fronts::number_at))]
pub fn number(bytes: &[u8]) -> Option<(u64, &[u8])>
    ensures { MatchOption result (number_at bytes.now ≡ None) (λ r. number_at bytes.now ≡ Some (r.0, r.1.now)) }
{
    let count = digit_count(bytes);
    let number = numeral(&bytes[..count])?;
    Some((number, &bytes[count..]))
}

/// The name in front, without the letter that says of what.
pub fn id(bytes: &[u8]) -> Option<(Id, &[u8])>
    ensures { MatchOption result (id_at bytes.now ≡ None) (λ r. id_at bytes.now ≡ Some (r.0, r.1.now)) }
{
    let (boot, rest) = number(bytes)?;
    let rest = behind(b".", rest)?;
    let (seq, rest) = number(rest)?;
    Some((Id { boot, seq }, rest))
}
