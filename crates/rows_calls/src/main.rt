//! Tells what is asked of the devices by each step, a line for each write and each sync: of one log, of the coordinator's log, and of a
//! partition. Then what pairs of logs are taken for that nobody here has written, or that a hand has spoiled, of which no byte changes.
#![tactic(auto)]

mod calls;
mod foreign;
mod pairs;
mod recorder;

use calls::{decision_calls, log_calls, part_calls};
use foreign::{coordinator_answer, part_answer};
use pairs::{COORDINATORS, PARTITIONS};
use recorder::Recorder;
use std::alloc::{AllocError, Global};
use std::io;

/// Devices with these bytes get a log.
const BEFORE: [(&str, &[u8]); 4] = [
    ("create on no bytes", b""),
    ("create on a first byte 1", b"\x01"),
    ("create on a log", b"\x01\0\0\0\0\0\0\0\x02hi\0"),
    ("create on a closed gate", b"\0\x01"),
];

/// The lines, where each call did what it was asked to.
fn lines_of<E: Drop>(alloc: Global, made: Result<Recorder, E>) -> Result<String, AllocError> {
    match made {
        Ok(disks) => disks.lines().unwrap_or("no memory\n").to_string(alloc),
        Err(_) => "a call has failed\n".to_string(alloc),
    }
}

fn main(rt: HostRuntime) -> io::Result<()> {
    let alloc = rt.alloc();
    for (step, bytes) in BEFORE {
        let lines = lines_of(alloc, log_calls(alloc, step, bytes))?;
        print!(rt; "{lines}")?;
    }
    let lines = lines_of(alloc, decision_calls(alloc))?;
    print!(rt; "{lines}")?;
    let lines = lines_of(alloc, part_calls(alloc))?;
    print!(rt; "{lines}")?;
    println!(rt; "the coordinator's pair")?;
    for pair in &COORDINATORS {
        let answer = coordinator_answer(alloc, pair)?;
        let what = pair.what;
        println!(rt; "  {what}: {answer}")?;
    }
    println!(rt; "a partition's pair")?;
    for pair in &PARTITIONS {
        let answer = part_answer(alloc, pair)?;
        let what = pair.what;
        println!(rt; "  {what}: {answer}")?;
    }
    Ok(())
}
