//! How a verdict is told.

ghost use Rattle.salt_model.specs.EventTexts.{unit_text};
ghost use Rattle.salt_transcript.specs.Wording.{law_words, verdict_text};
ghost use Rattle.std.specs.Fmt.{decimal};
ghost use Rattle.std.specs.Prelude.{OnOk, codes, ◌++◌, ◌≡◌};

use itoa::Buffer;
use salt_audit::{Law, Verdict};
use salt_values::Id;
use std::alloc::AllocError;

/// Puts words and a number behind a text.
fn put(text: &mut Vec<u8>, words: &[u8], number: u64) -> Result<(), AllocError>
    ensures { OnOk result (text.new.items ≡ text.old.items ++ (words.now ++ decimal number)) }
{
    let mut buffer = Buffer::new();
    text.extend_from_slice(words)?;
    text.extend_from_slice(buffer.format(number).as_bytes())?;
    Ok(())
}

fn put_law(text: &mut Vec<u8>, law: Law) -> Result<(), AllocError>
    ensures { OnOk result (text.new.items ≡ text.old.items ++ law_words law) }
{
    match law {
        Law::Honest => text.extend_from_slice(b"audit broken D8 "),
        Law::Salted => text.extend_from_slice(b"audit broken D13 "),
        Law::Whole => text.extend_from_slice(b"audit broken D14 "),
    }
}

fn put_broken(text: &mut Vec<u8>, law: Law, unit: Id, event: u64) -> Result<(), AllocError>
    ensures { OnOk result (text.new.items ≡ text.old.items ++ (law_words law ++ (unit_text unit ++ (codes " " ++ decimal event)))) }
{
    put_law(text, law)?;
    put(text, b"u", unit.boot)?;
    put(text, b".", unit.seq)?;
    put(text, b" ", event)?;
    Ok(())
}

/// Puts a verdict behind a text, in words.
pub fn print_verdict(text: &mut Vec<u8>, verdict: Verdict) -> Result<(), AllocError>
    ensures { OnOk result (text.new.items ≡ text.old.items ++ verdict_text verdict) }
{
    match verdict {
        Verdict::Yes { events } => put(text, b"audit yes ", events),
        Verdict::Broken { law, unit, event } => put_broken(text, law, unit, event),
        Verdict::NotText { line } => put(text, b"audit not text ", line),
        Verdict::Unformed { event } => put(text, b"audit unformed ", event),
    }
}
