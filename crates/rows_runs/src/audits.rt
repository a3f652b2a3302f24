//! Transcripts that are audited: what is found of each.

use crate::devices::{Devices, ROOM};
use crate::outcome::Outcome;
use salt_run::Status;
use std::alloc::{AllocError, Global};

/// Two accounts, the first part of a transfer between them, and a unit that begins.
const START: &str = "\
opened 1 0
ready
defined 1 create table acct (id int key, bal int, check ((bal >= 0) and (bal <= 1000)))
defined 2 program transfer(a int, b int, amt int) base part { update acct set bal = (bal - :amt) where key = :a } part { update acct set bal = (bal + :amt) where key = :b } then end on failure go 3 part { update acct set bal = (bal + :amt) where key = :a } on failure end end
u1.1 began @1
u1.1 did insert into acct values (1, 100) -> count 1
u1.1 committed 3
u1.2 began @1
u1.2 did insert into acct values (2, 50) -> count 1
u1.2 committed 4
u1.3 began @1 b1.1 part 1 of transfer(1, 2, 30)
u1.3 did update acct set bal = (bal - :amt) where key = :a -> count 1
u1.3 committed 5
b1.1 accepted
u1.4 began @2
";

/// The unit waits for the program, whose second part is done.
const WAITS: &str = "\
u1.4 waits b1.1
u1.5 began b1.1 part 2
u1.5 did update acct set bal = (bal + :amt) where key = :b -> count 1
u1.5 committed 6
b1.1 finished
released b1.1
";

/// It reads what the first part left.
const READS: &str = "u1.4 did select bal from acct where key = 1 -> rows (70)\n";

/// It reads what was there before.
const READS_OLD: &str = "u1.4 did select bal from acct where key = 1 -> rows (100)\n";

const COMMITS: &str = "u1.4 committed 7\n";

/// Transcripts, each of these pieces.
const TRANSCRIPTS: [&[&str]; 8] = [
    &[START, WAITS, READS, COMMITS],
    &[START, READS],
    &[START, READS_OLD],
    &[START, WAITS, READS, COMMITS, COMMITS],
    &[
        START,
        WAITS,
        "u1.4 did select bal from acct where key = 1 -> rows (70)",
    ],
    &["hello\n"],
    &["ready\n"],
    &[],
];

/// What is found of a transcript: it is judged by its bytes, whatever devices there are.
fn audited(alloc: Global, transcript: &[u8]) -> Result<Outcome, AllocError> {
    let mut devices = Devices::new(alloc)?;
    devices.run_within(alloc, ROOM, &["audit"], transcript)
}

/// Whether a story is audited yes.
pub fn is_sound(alloc: Global, story: &[u8]) -> Result<bool, AllocError> {
    let outcome = audited(alloc, story)?;
    Ok(outcome.is(Status::Done) && outcome.text().starts_with(b"audit yes "))
}

/// What is found of the transcript of these pieces, behind its status.
fn told_of(alloc: Global, pieces: &[&str]) -> Result<Vec<u8>, AllocError> {
    let mut transcript = Vec::new(alloc);
    for piece in pieces {
        transcript.extend_from_slice(piece.as_bytes())?;
    }
    let outcome = audited(alloc, &transcript)?;
    let status = format!(in alloc; "{} ", outcome.status().number())?;
    let mut text = status.into_bytes();
    text.extend_from_slice(outcome.text())?;
    Ok(text)
}

/// What is found of each transcript.
pub fn audits(alloc: Global) -> Result<Vec<u8>, AllocError> {
    let mut text = Vec::new(alloc);
    for pieces in TRANSCRIPTS {
        text.extend_from_slice(&told_of(alloc, pieces)?)?;
    }
    Ok(text)
}
