//! A log of the coordinator is read.

ghost use Rattle.salt_bytes.specs.Coordinator.{header_in, is_number_of_parts};
ghost use Rattle.salt_decisions.specs.Header.{header_of};
ghost use Rattle.salt_decisions.specs.Read.{HasContent, HearsAll, HearsOne};
ghost use Rattle.salt_decisions.specs.Said.{SaysTold};
ghost use Rattle.salt_disk.specs.Disks.{HasCause, IsSettled, KeepsAll, OnlyFails, UnlessDown};
ghost use Rattle.salt_gatelog.specs.Entry.{HasMoved};
ghost use Rattle.salt_gatelog.specs.Log.{IsLog, count_of, device_of};
ghost use Rattle.salt_stands.specs.CoordinatorLog.{Told};
ghost use Rattle.std.specs.Prelude.{IfOk, IsTrue, List, OnOk, Some, length, slice_get, true, ℕ, ◌<◌, ◌≡◌, ◌≤◌};
ghost use Rattle.std.specs.Result.{result_err};

use crate::entry::read_entry;
use crate::header::{Header, read_header};
use crate::said::Said;
use salt_disk::{DiskErr, Disks};
use salt_gatelog::{GateLog, LogErr, open_log};
use salt_place::Shape;
use salt_values::Conts;
use sqlite_items::Items;
use std::alloc::Global;

/// A log that was read.
#[derive(Drop)]
pub struct ReadLog {
    pub gate: GateLog,
    pub format: u8,
    pub generation: u64,
    pub shape: Shape,
    /// The continuations of its header.
    pub conts: Conts,
    pub said: Said,
}

/// What a device of the coordinator holds.
#[derive(Drop)]
pub enum Content {
    Blank,
    Log(ReadLog),
    /// Neither nothing nor a log of the coordinator.
    Outside,
}

/// The payload of an entry of this number, counted from 0.
fn payload_at<D: Disks>(
    alloc: Global,
    disks: &mut D,
    gate: &mut GateLog,
    i: u64,
) -> Result<Vec<u8>, DiskErr>
    requires log { (entries : List (List ℕ)) × IsLog (D.view disks.old) gate.old entries }
    requires below { i < count_of gate.old }
    ensures payload { IfOk result (λ payload. (entries : List (List ℕ)) → IsLog (D.view disks.old) gate.old entries → IsTrue (D.view disks.old).told → Some payload.items ≡ slice_get entries i) }
    ensures log { (entries : List (List ℕ)) → IsLog (D.view disks.old) gate.old entries → UnlessDown (result_err result) (IsLog (D.view disks.new) gate.new entries) }
    ensures same { HasMoved gate.old gate.new }
    ensures kept { KeepsAll (D.view disks.old) (D.view disks.new) (result_err result) }
    ensures cause { HasCause (D.view disks.old) (D.view disks.new) (result_err result) }
    ensures answers { OnlyFails (result_err result) }
{
    let mut payload = Vec::new(alloc);
    gate.entry(alloc, disks, i, &mut payload)?;
    Ok(payload)
}

/// Takes the entry of a number, where it is one and follows on; else it answers false.
fn hear_one<D: Disks>(
    alloc: Global,
    disks: &mut D,
    gate: &mut GateLog,
    parts: u8,
    said: &mut Said,
    i: u64,
) -> Result<bool, DiskErr>
    requires log { (entries : List (List ℕ)) × IsLog (D.view disks.old) gate.old entries }
    requires below { i < count_of gate.old }
    requires parts { parts ≤ 8 }
    ensures heard { (t : Told) → SaysTold said.old t → IfOk result (HearsOne (D.view disks.old) gate.old parts t said.new i) }
    ensures log { (entries : List (List ℕ)) → IsLog (D.view disks.old) gate.old entries → UnlessDown (result_err result) (IsLog (D.view disks.new) gate.new entries) }
    ensures same { HasMoved gate.old gate.new }
    ensures kept { KeepsAll (D.view disks.old) (D.view disks.new) (result_err result) }
    ensures cause { HasCause (D.view disks.old) (D.view disks.new) (result_err result) }
    ensures answers { OnlyFails (result_err result) }
{
    let payload = payload_at(alloc, disks, gate, i)?;
    match read_entry(alloc, parts, &payload)? {
        Some(entry) => Ok(said.hear(entry)?),
        None => Ok(false),
    }
}

/// Takes all entries behind the header, where each is one and follows on; else it answers false.
fn hear_all<D: Disks>(
    alloc: Global,
    disks: &mut D,
    gate: &mut GateLog,
    parts: u8,
    said: &mut Said,
) -> Result<bool, DiskErr>
    requires log { (entries : List (List ℕ)) × IsLog (D.view disks.old) gate.old entries }
    requires parts { parts ≤ 8 }
    ensures heard { (t : Told) → SaysTold said.old t → IfOk result (HearsAll (D.view disks.old) gate.old parts t said.new) }
    ensures log { OnOk result ((entries : List (List ℕ)) → IsLog (D.view disks.old) gate.old entries → IsLog (D.view disks.new) gate.new entries) }
    ensures same { HasMoved gate.old gate.new }
    ensures kept { KeepsAll (D.view disks.old) (D.view disks.new) (result_err result) }
    ensures cause { HasCause (D.view disks.old) (D.view disks.new) (result_err result) }
    ensures answers { OnlyFails (result_err result) }
{
    for i in 1..gate.count() {
        if !hear_one(alloc, disks, gate, parts, said, i)? {
            return Ok(false);
        }
    }
    Ok(true)
}

/// Reads the entries behind a header.
fn read_entries<D: Disks>(
    alloc: Global,
    disks: &mut D,
    mut gate: GateLog,
    header: Header,
) -> Result<Content, DiskErr>
    requires log { (entries : List (List ℕ)) × IsLog (D.view disks.old) gate entries }
    requires parts { is_number_of_parts header.shape.parts ≡ true }
    ensures content { (entries : List (List ℕ)) (first : List ℕ) → IsLog (D.view disks.old) gate entries → (IsTrue (D.view disks.old).told → Some first ≡ slice_get entries 0)
        → header_in first ≡ Some (header_of header) → IfOk result (HasContent (D.view disks.new) (device_of gate)) }
    ensures kept { KeepsAll (D.view disks.old) (D.view disks.new) (result_err result) }
    ensures cause { HasCause (D.view disks.old) (D.view disks.new) (result_err result) }
    ensures answers { OnlyFails (result_err result) }
{
    let Header {
        format,
        generation,
        shape,
        boot,
        decisions,
        definitions,
        conts,
    } = header;
    let mut said = Said {
        boot,
        decisions,
        definitions,
        decided: Items::new(alloc),
        masks: Items::new(alloc),
        moves: Items::new(alloc),
    };
    if !hear_all(alloc, disks, &mut gate, shape.parts, &mut said)? {
        return Ok(Content::Outside);
    }
    Ok(Content::Log(ReadLog {
        gate,
        format,
        generation,
        shape,
        conts,
        said,
    }))
}

/// Reads a log that was opened.
fn read_log<D: Disks>(alloc: Global, disks: &mut D, mut gate: GateLog) -> Result<Content, DiskErr>
    requires log { (entries : List (List ℕ)) × IsLog (D.view disks.old) gate entries × (0 < length entries) }
    ensures content { IfOk result (HasContent (D.view disks.new) (device_of gate)) }
    ensures kept { KeepsAll (D.view disks.old) (D.view disks.new) (result_err result) }
    ensures cause { HasCause (D.view disks.old) (D.view disks.new) (result_err result) }
    ensures answers { OnlyFails (result_err result) }
{
    let payload = payload_at(alloc, disks, &mut gate, 0)?;
    match read_header(alloc, &payload)? {
        Some(header) => read_entries(alloc, disks, gate, header),
        None => Ok(Content::Outside),
    }
}

/// What a device of the coordinator holds, on which nothing is pending. It writes nothing.
pub fn read_device<D: Disks>(alloc: Global, disks: &mut D, dev: u32) -> Result<Content, DiskErr>
    requires known { dev < (D.view disks.old).count }
    requires settled { IsSettled (D.view disks.old) dev }
    ensures content { IfOk result (HasContent (D.view disks.new) dev) }
    ensures kept { KeepsAll (D.view disks.old) (D.view disks.new) (result_err result) }
    ensures cause { HasCause (D.view disks.old) (D.view disks.new) (result_err result) }
    ensures answers { OnlyFails (result_err result) }
{
    match open_log(alloc, disks, dev) {
        Ok(gate) => read_log(alloc, disks, gate),
        Err(LogErr::Blank) => Ok(Content::Blank),
        Err(LogErr::NotLog) => Ok(Content::Outside),
        Err(LogErr::Disk(e)) => Err(e),
    }
}
