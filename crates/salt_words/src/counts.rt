//! Numbers in words.

ghost use Rattle.salt_promise.specs.Words.{count_said};
ghost use Rattle.std.specs.Char.{is_ascii_digit};
ghost use Rattle.std.specs.List.{list_all};
ghost use Rattle.std.specs.Prelude.{◌<◌, ◌≡◌, ◌≤◌, IfSome};

fn are_digits(word: &[u8]) -> bool
    ensures { result ≡ list_all is_ascii_digit word.now }
{
    word.iter().all(|byte| byte.is_ascii_digit())
}

/// The number from 1 to `most` that decimal digits say.
pub fn count_in(most: u64, word: &str) -> Option<u64>
    ensures value { result ≡ count_said most word.now }
    ensures within { IfSome result (λ count. (0 < count) × (count ≤ most)) }
{
    if !are_digits(word.as_bytes()) {
        return None;
    }
    let Ok(count) = word.parse::<u64>() else {
        return None;
    };
    if 0 < count && count <= most {
        Some(count)
    } else {
        None
    }
}
