//! What the program does by its words, and what it says of how it ended.

use crate::devices::{Devices, ROOM};
use crate::outcome::Outcome;
use salt_place::{PlaceKind, Shape};
use salt_run::Status;
use std::alloc::{AllocError, Global};

const SCRIPT: &str = "create table t (id int key)\n";

/// Words that are no command, a run, and workloads.
const WORDS: [&[&str]; 26] = [
    &[],
    &["run", "run"],
    &["run", "--parts", "9"],
    &["run", "--parts", "2", "--parts", "2"],
    &["run", "--early", "--early"],
    &["run", "--place", "band"],
    &["run", "--"],
    &["Run"],
    &[""],
    &["load"],
    &["load", "0"],
    &["load", "20001"],
    &["load", "+1"],
    &["load", "1", "1"],
    &["audit", "audit"],
    &["Audit"],
    &["run"],
    &["run", "--parts=8"],
    &["run", "--parts", "1", "--dir=data"],
    &["run", "--early"],
    &["run", "--place=bands"],
    &["load", "1"],
    &["load", "008"],
    &["load", "50"],
    &["load", "2000"],
    &["load", "2000"],
];

/// Each way in which a run ends, with its number and its line.
pub fn statuses(alloc: Global) -> Result<Vec<u8>, AllocError> {
    let kept = Shape {
        parts: 2,
        kind: PlaceKind::Remainder,
    };
    let asked = Shape {
        parts: 3,
        kind: PlaceKind::Bands,
    };
    let mut text = Vec::new(alloc);
    for status in [
        Status::Done,
        Status::Memory,
        Status::Usage,
        Status::ReadFault,
        Status::WriteFault,
        Status::DiskFault,
        Status::NotSalt(4),
        Status::DeviceFull(7),
        Status::OtherShape { kept, asked },
        Status::ScriptTooLong,
        Status::NumbersSpent {
            boot: 5,
            decisions: 9_223_372_036_854_775_808,
        },
        Status::Broken,
        Status::Unread,
        Status::TranscriptTooLong,
    ] {
        let line = format!(in alloc; "{} salt: {status}\n", status.number())?;
        text.extend_from_slice(line.as_bytes())?;
    }
    Ok(text)
}

/// These words, each behind a blank.
fn words_text(alloc: Global, words: &[&str]) -> Result<Vec<u8>, AllocError> {
    let mut text = Vec::new(alloc);
    for word in words {
        text.push(b' ')?;
        text.extend_from_slice(word.as_bytes())?;
    }
    Ok(text)
}

fn outcome_by(alloc: Global, words: &[&str]) -> Result<Outcome, AllocError> {
    let mut devices = Devices::new(alloc)?;
    devices.run_within(alloc, ROOM, words, SCRIPT.as_bytes())
}

/// What a run by these words tells, behind them and its status.
fn told_by(alloc: Global, words: &[&str]) -> Result<Vec<u8>, AllocError> {
    let outcome = outcome_by(alloc, words)?;
    let mut text = words_text(alloc, words)?;
    let status = format!(in alloc; ": {}\n", outcome.status().number())?;
    text.extend_from_slice(status.as_bytes())?;
    text.extend_from_slice(outcome.text())?;
    Ok(text)
}

/// What runs by these words tell.
pub fn by_words(alloc: Global) -> Result<Vec<u8>, AllocError> {
    let mut text = Vec::new(alloc);
    for words in WORDS {
        text.extend_from_slice(&told_by(alloc, words)?)?;
    }
    Ok(text)
}
