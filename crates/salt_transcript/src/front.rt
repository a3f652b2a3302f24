//! The line in front of bytes.

ghost use Rattle.salt_transcript.specs.Fronts.{IsInFront, is_line_end};
ghost use Rattle.law_texts.specs.EventLines.{Inline};
ghost use Rattle.std.specs.List.{position_from};
ghost use Rattle.std.specs.Prelude.{MatchOption, ◌≡◌};

fn line_end(bytes: &[u8]) -> Option<usize>
    ensures { result ≡ position_from is_line_end 0 bytes.now }
{
    bytes.iter().position(|byte| *byte == b'\n')
}

/// The line in front, without the LF that ends it, and what is behind that; `None` where no line ends.
pub fn line_in_front(bytes: &[u8]) -> Option<(&[u8], &[u8])>
    ensures { MatchOption result (Inline bytes.now) (λ r. IsInFront r.0.now r.1.now bytes.now) }
{
    let Some(at) = line_end(bytes) else {
        return None;
    };
    let line = &bytes[..at];
    let more = &bytes[at + 1..];
    Some((line, more))
}
