//! Salt's program: `salt run` reads a script from standard input and prints its story; `salt load N` does a workload and prints its summary.
#![tactic(auto)]

ghost use Rattle.salt_disk.specs.Settling.{AreSettled};
ghost use Rattle.salt_place.specs.Placement.{IsParts, place_of};
ghost use Rattle.std.specs.Prelude.{◌≡◌, ◌≤◌};

use salt_disk::{Disks, MemDisks};
use salt_files::FileDisks;
use salt_io::{StdSink, StdSource};
use salt_place::{PlaceKind, Placement, place_of};
use salt_run::{Status, folder_of, run};
use salt_values::Key;
use std::alloc::AllocError;
use std::fs::File;
use std::process::ExitCode;
use std::rt::Env;
use std::{env, io, mem};

/// How many devices there are in memory, and how long each may be.
const DEVICES: u32 = 26;

const LIMIT: u64 = 67_108_864;

/// The words behind the program's name. `InvalidData` where one of them, or the name, is not UTF-8.
fn words(rt: &(impl Env + AllocGlobal)) -> io::Result<Vec<String>> {
    let mut words = Vec::new(rt.alloc());
    for word in env::args(rt)?.skip(1) {
        words.push(word)?;
    }
    Ok(words)
}

/// Three files without bytes, which can't be written. While they are open the descriptors 0 to 2 are taken.
///
/// A file that is opened gets the least descriptor that is free. Where a standard stream is closed that is the stream's own, and the
/// first device's file would take what is printed, or be read as the script.
fn take_streams(rt: &HostRuntime) -> io::Result<[File; 3]> {
    Ok([
        File::open(rt, "/dev/null")?,
        File::open(rt, "/dev/null")?,
        File::open(rt, "/dev/null")?,
    ])
}

/// Runs what the words say over these devices.
fn run_over<D: Disks>(rt: &HostRuntime, words: &[String], disks: &mut D) -> Status
    requires devices { 26 ≤ (D.view disks.old).count }
    requires settled { AreSettled (D.view disks.old) }
{
    let place = Placement::new(
        |kind: PlaceKind, key: &Key, parts: u32| -> u32
            requires { IsParts parts }
            ensures { result ≡ place_of kind key.now parts }
        { place_of(kind, key, parts) },
    );
    let mut source = StdSource::new(rt.reader());
    let mut sink = StdSink::new(io::writer(rt));
    let ended = run(rt.alloc(), words, &mut source, &mut sink, disks, &place);
    let status = ended.status;
    // the process ends next: its memory goes at once, and the events of a story need not be let go one by one
    mem::forget(ended);
    status
}

/// Runs what the words say: over the files of the folder that they name, or in memory. No device's file is opened where a closed stream
/// might get it.
fn run_words(rt: &HostRuntime, words: &[String]) -> Result<Status, AllocError> {
    let streams = take_streams(rt);
    match folder_of(words) {
        Some(_) if streams.is_err() => Ok(Status::DiskFault),
        Some(folder) => {
            let mut disks = FileDisks::new(rt, folder)?;
            Ok(run_over(rt, words, &mut disks))
        }
        None => {
            let mut disks = MemDisks::new(rt.alloc(), DEVICES, LIMIT)?;
            Ok(run_over(rt, words, &mut disks))
        }
    }
}

/// How a run ends without its words: a word that is not UTF-8 is of no command, and else there was no memory to copy them.
fn status_without_words(error: &io::Error) -> Status {
    if error.kind() == io::ErrorKind::InvalidData {
        Status::Usage
    } else {
        Status::Memory
    }
}

fn main(rt: HostRuntime) -> ExitCode {
    let status = match words(&rt) {
        Ok(words) => run_words(&rt, words.as_slice()).unwrap_or(Status::Memory),
        Err(error) => status_without_words(&error),
    };
    if status != Status::Done {
        let _ = eprintln!(rt; "salt: {status}");
    }
    ExitCode::from(status.number())
}
