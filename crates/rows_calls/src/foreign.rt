//! What pairs of logs are opened as, which leaves each byte.

ghost use Rattle.salt_disk.specs.Disks.{IsSettled};
ghost use Rattle.salt_disk.specs.MemDisks.{seen};
ghost use Rattle.std.specs.Prelude.{◌<◌, ◌≡◌};

use crate::pairs::Pair;
use crate::recorder::Recorder;
use salt_decisions::peek;
use salt_gatelog::PairErr;
use salt_partition::open_partition;
use sqlite_items::Items;
use std::alloc::{AllocError, Global};

/// The answer to a look at the coordinator's pair.
fn peeked(alloc: Global, disks: &mut Recorder) -> Result<String, AllocError>
    requires known { 1 < (seen disks.old.disks).count }
    requires settled_a { IsSettled (seen disks.old.disks) 0 }
    requires settled_b { IsSettled (seen disks.old.disks) 1 }
    ensures { (seen disks.new.disks).count ≡ (seen disks.old.disks).count }
{
    match peek(alloc, disks) {
        Ok(None) => "blank".to_string(alloc),
        Ok(Some((_shape, kept))) => {
            let (boot, decisions) = (kept.boot, kept.decisions);
            format!(in alloc; "boot {boot}, decisions {decisions}")
        }
        Err(PairErr::NotSalt(dev)) => format!(in alloc; "not salt {dev}"),
        Err(_) => "?".to_string(alloc),
    }
}

/// The answer to an opening of partition 0.
fn opened(alloc: Global, disks: &mut Recorder) -> Result<String, AllocError>
    requires known { 4 < (seen disks.old.disks).count }
    requires settled_a { IsSettled (seen disks.old.disks) 2 }
    requires settled_b { IsSettled (seen disks.old.disks) 3 }
    ensures { (seen disks.new.disks).count ≡ (seen disks.old.disks).count }
{
    let decided = Items::new(alloc);
    match open_partition(alloc, disks, 0, 1, &decided) {
        Ok(_part) => "opened".to_string(alloc),
        Err(PairErr::NotSalt(dev)) => format!(in alloc; "not salt {dev}"),
        Err(_) => "?".to_string(alloc),
    }
}

/// Whether the devices of the pair hold its bytes, and nothing was asked of them but reads.
fn is_as_before(disks: &Recorder, a: u32, b: u32, pair: &Pair) -> bool
    requires a { a < (seen disks.now.disks).count }
    requires b { b < (seen disks.now.disks).count }
{
    disks.lines() == Some("") && disks.disks.bytes(a) == pair.a && disks.disks.bytes(b) == pair.b
}

/// What the coordinator's pair is taken for.
pub fn coordinator_answer(alloc: Global, pair: &Pair) -> Result<String, AllocError> {
    let mut disks = Recorder::new(alloc, 2, 1000)?;
    disks.set_bytes(0, pair.a)?;
    disks.set_bytes(1, pair.b)?;
    let answer = peeked(alloc, &mut disks)?;
    if is_as_before(&disks, 0, 1, pair) {
        Ok(answer)
    } else {
        "changed".to_string(alloc)
    }
}

/// What partition 0's pair is taken for.
pub fn part_answer(alloc: Global, pair: &Pair) -> Result<String, AllocError> {
    let mut disks = Recorder::new(alloc, 5, 1000)?;
    disks.set_bytes(2, pair.a)?;
    disks.set_bytes(3, pair.b)?;
    let answer = opened(alloc, &mut disks)?;
    if is_as_before(&disks, 2, 3, pair) {
        Ok(answer)
    } else {
        "changed".to_string(alloc)
    }
}
