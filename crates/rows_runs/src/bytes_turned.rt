//! Runs over the devices of a small database of which one byte is another, or the last is gone.

ghost use Rattle.std.specs.Prelude.{◌<◌};

use crate::devices::{DEVICES, Devices};
use crate::others::with_row;
use crate::outcome::Outcome;
use salt_run::Status;
use std::alloc::{AllocError, Global};

const ASKED: &str = "@1 select * from t where key = 5\n";

/// What the line tells, up to its answer.
const ANSWER: &[u8] = b"did select * from t where key = 5 -> ";

const ROW: &[u8] = b"rows (5, -3)";

/// The bits that are turned of a byte: the last one, or all.
const MASKS: [u8; 2] = [1, 255];

/// What has become of a run.
#[derive(Clone, Copy)]
enum Fate {
    /// It was refused, by the device with the other byte.
    It,
    /// It was refused by another one.
    Another,
    /// It was refused by its shape.
    Shape,
    /// It has told the row.
    Same,
    /// It has told another answer.
    Other,
    /// It was refused, and has told or changed something; or a run behind it tells another answer than it has.
    Amiss,
}

/// How many runs have become what.
#[derive(Clone, Copy)]
struct Tally {
    it: u64,
    another: u64,
    shape: u64,
    same: u64,
    other: u64,
    amiss: u64,
}

impl Tally {
    fn new() -> Tally {
        Tally {
            it: 0,
            another: 0,
            shape: 0,
            same: 0,
            other: 0,
            amiss: 0,
        }
    }

    fn add(&mut self, fate: Fate) {
        match fate {
            Fate::It => self.it = self.it.saturating_add(1),
            Fate::Another => self.another = self.another.saturating_add(1),
            Fate::Shape => self.shape = self.shape.saturating_add(1),
            Fate::Same => self.same = self.same.saturating_add(1),
            Fate::Other => self.other = self.other.saturating_add(1),
            Fate::Amiss => self.amiss = self.amiss.saturating_add(1),
        }
    }
}

/// Of a run that has ended well: a run behind it tells the same answer.
fn fate_opened(alloc: Global, outcome: &Outcome, after: &Devices) -> Result<Fate, AllocError> {
    let again = after.copied(alloc)?.run(alloc, ASKED.as_bytes())?;
    let answer = outcome.last_behind(ANSWER);
    if !again.is(Status::Done) || again.last_behind(ANSWER) != answer {
        return Ok(Fate::Amiss);
    }
    Ok(if answer == ROW {
        Fate::Same
    } else {
        Fate::Other
    })
}

/// Of a run that was refused.
fn fate_refused(status: Status, dev: u32) -> Fate {
    match status {
        Status::NotSalt(named) => {
            if named == dev {
                Fate::It
            } else {
                Fate::Another
            }
        }
        Status::OtherShape { .. } => Fate::Shape,
        _ => Fate::Amiss,
    }
}

/// Of a run over devices of which this one holds another byte.
fn fate_by(
    alloc: Global,
    outcome: &Outcome,
    dev: u32,
    before: &Devices,
    after: &Devices,
) -> Result<Fate, AllocError> {
    if outcome.is(Status::Done) {
        return fate_opened(alloc, outcome, after);
    }
    if outcome.text().is_empty() && before.are_as(after) {
        Ok(fate_refused(outcome.status(), dev))
    } else {
        Ok(Fate::Amiss)
    }
}

/// What becomes of a run where a device holds these bytes.
fn fate_of(
    alloc: Global,
    kept: &Devices,
    dev: u32,
    bytes: &[u8],
) -> Result<(Fate, Status), AllocError>
    requires { dev < 26 }
{
    let mut devices = kept.copied(alloc)?;
    devices.set_bytes(dev, bytes)?;
    let before = devices.copied(alloc)?;
    let outcome = devices.run(alloc, ASKED.as_bytes())?;
    let fate = fate_by(alloc, &outcome, dev, &before, &devices)?;
    Ok((fate, outcome.status()))
}

/// The bytes, where the one at this place is turned.
fn turned(alloc: Global, bytes: &[u8], at: usize, mask: u8) -> Result<Vec<u8>, AllocError> {
    let mut turned = Vec::new(alloc);
    for (place, byte) in bytes.iter().enumerate() {
        turned.push(if place == at { *byte ^ mask } else { *byte })?;
    }
    Ok(turned)
}

/// Each byte of a device is turned in turn.
fn tally_of(alloc: Global, kept: &Devices, dev: u32, mask: u8) -> Result<Tally, AllocError>
    requires { dev < 26 }
{
    let bytes = kept.bytes(dev);
    let mut tally = Tally::new();
    for at in 0..bytes.len() {
        let others = turned(alloc, bytes, at, mask)?;
        let (fate, _status) = fate_of(alloc, kept, dev, &others)?;
        tally.add(fate);
    }
    Ok(tally)
}

/// The line that tells of a device's bytes.
fn tally_line(alloc: Global, dev: u32, mask: u8, tally: Tally) -> Result<Vec<u8>, AllocError> {
    let Tally {
        it,
        another,
        shape,
        same,
        other,
        amiss,
    } = tally;
    let refused = format!(in alloc;
        "{it} refused by it, {another} by another, {shape} of another shape"
    )?;
    let opened = format!(in alloc;
        "{same} with the row, {other} with another answer, {amiss} amiss"
    )?;
    Ok(format!(in alloc;
        "device {dev}, bytes turned by {mask}: {refused}, {opened}\n"
    )?.into_bytes())
}

/// The lines of each device that holds bytes.
fn turned_by(alloc: Global, kept: &Devices, mask: u8) -> Result<Vec<u8>, AllocError> {
    let mut text = Vec::new(alloc);
    for dev in 0..DEVICES {
        if !kept.bytes(dev).is_empty() {
            let tally = tally_of(alloc, kept, dev, mask)?;
            text.extend_from_slice(&tally_line(alloc, dev, mask, tally)?)?;
        }
    }
    Ok(text)
}

/// What becomes of a database of which one byte is turned.
pub fn turned_bytes(alloc: Global) -> Result<Vec<u8>, AllocError> {
    let kept = with_row(alloc)?;
    let mut text = Vec::new(alloc);
    for mask in MASKS {
        text.extend_from_slice(&turned_by(alloc, &kept, mask)?)?;
    }
    Ok(text)
}

/// The line that tells of a device without its last byte.
fn cut_line(alloc: Global, kept: &Devices, dev: u32, bytes: &[u8]) -> Result<Vec<u8>, AllocError>
    requires { dev < 26 }
{
    let (fate, status) = fate_of(alloc, kept, dev, bytes)?;
    let end = if matches!(fate, Fate::It | Fate::Same) {
        ""
    } else {
        ", amiss"
    };
    Ok(format!(in alloc; "device {dev} without its last byte: {status}{end}\n")?.into_bytes())
}

/// What becomes of a database of which a device has lost its last byte.
pub fn cut_devices(alloc: Global) -> Result<Vec<u8>, AllocError> {
    let kept = with_row(alloc)?;
    let mut text = Vec::new(alloc);
    for dev in 0..DEVICES {
        if let [bytes @ .., _last] = kept.bytes(dev) {
            text.extend_from_slice(&cut_line(alloc, &kept, dev, bytes)?)?;
        }
    }
    Ok(text)
}
