//! The log, and what is added to it.
ghost use Rattle.std.specs.Prelude.{Err, ◌≡◌, ◌⊎◌, ℕ, ◌+◌, ◌<◌, ◌≤◌, ◌++◌, [], ◌∷◌, IsTrue, List, drop, length, IfOk, OnErr, OnOk};
ghost use Rattle.std.specs.Result.{result_err};
ghost use Rattle.salt_disk.specs.Disks.{EachImage, FullExactly, FullOnly, HasCause, IsSettled, IsUnchanged, KeepsAll, KeepsOthers, OnlyFails};
ghost use Rattle.salt_disk.specs.declared.disks.DiskErr.TheVariants.{Full};
ghost use Rattle.salt_bytes.specs.Log.{framed, entries_in};
ghost use Rattle.salt_gatelog.specs.Log.{HasClosedGate, IsBeforeOrWith, IsLog, count_of, device_of, front, gate_of, payload_in};

use crate::block::Block;
use salt_disk::{DiskErr, Disks, write_and_sync};
use std::alloc::{AllocError, Global};

/// The log of one device: where its closed gate stands, how many entries it has, and which was found last.
#[derive(Debug, Drop)]
pub struct GateLog {
    pub(crate) dev: u32,
    pub(crate) end: u64,
    pub(crate) count: u64,
    // the gate of the entry of this number stands at `place`; with no such entry, it is the closed gate
    pub(crate) next: u64,
    pub(crate) place: u64,
    // the piece of the device that entries are read out of, if one is in hand
    pub(crate) block: Option<Block>,
}

/// Leaves an empty log on a device on which nothing is pending. A first byte that is there and is not 1 is a closed gate, and
/// then no byte is written. Whatever it answers, each image of the device is blank or has the bytes that it had. `Full` leaves
/// the device as it was.
pub fn create<D: Disks>(disks: &mut D, dev: u32) -> Result<GateLog, DiskErr>
    requires known { dev < (D.view disks.old).count }
    requires settled { IsSettled (D.view disks.old) dev }

    ensures log { IfOk result (λ log. (device_of log ≡ dev) × IsLog (D.view disks.new) log []) }
    ensures images { EachImage (D.view disks.new) dev (λ c. (entries_in c ≡ Some []) ⊎ (c ≡ (D.view disks.old).bytes dev)) }

    ensures closed { IsTrue (D.view disks.old).told → HasClosedGate ((D.view disks.old).bytes dev) → KeepsAll (D.view disks.old) (D.view disks.new) (result_err result) }
    ensures unwritten { IsTrue (D.view disks.old).told → HasClosedGate ((D.view disks.old).bytes dev) → OnlyFails (result_err result) }

    ensures others { KeepsOthers dev (D.view disks.old) (D.view disks.new) (result_err result) }
    ensures cause { HasCause (D.view disks.old) (D.view disks.new) (result_err result) }
    ensures full { FullOnly dev ((D.view disks.old).limit dev) 1 (result_err result) }
    ensures untouched { (n : ℕ) → result ≡ Err (Full n) → IsUnchanged (D.view disks.old) (D.view disks.new) dev }
{
    let mut first = [1; 1];
    let count = disks.read(dev, 0, &mut first)?;
    if count == 0 || first[0] == 1 {
        write_and_sync(disks, dev, 0, &[0])?;
        return Ok(GateLog {
            dev,
            end: 0,
            count: 0,
            next: 0,
            place: 0,
            block: None,
        });
    }
    Ok(GateLog {
        dev,
        end: 0,
        count: 0,
        next: 0,
        place: 0,
        block: None,
    })
}

impl GateLog {
    /// The device that it stands on.
    pub fn device(&self) -> u32
        ensures { result ≡ device_of self.now }
    {
        self.dev
    }

    /// Where its closed gate stands.
    pub fn gate(&self) -> u64
        ensures { result ≡ gate_of self.now }
    {
        self.end
    }

    /// How many entries there are.
    pub fn count(&self) -> u64
        ensures { result ≡ count_of self.now }
    {
        self.count
    }

    /// Adds an entry. After Ok each image of the device has it. Whatever the call answers, each image stands for the entries from
    /// before, with the new one or without it. `Full` comes where the entry and the next closed gate would pass the limit, and
    /// leaves the device as it was.
    /// After an error the log is the same value, and is opened again before it is used.
    pub fn append<D: Disks>(
        &mut self,
        alloc: Global,
        disks: &mut D,
        payload: &[u8],
    ) -> Result<(), DiskErr>
        requires { (entries : List (List ℕ)) × IsLog (D.view disks.old) self.old entries }

        ensures ok { (entries : List (List ℕ)) → IsLog (D.view disks.old) self.old entries → OnOk result (IsLog (D.view disks.new) self.new (entries ++ payload.now ∷ [])) }
        ensures images { (entries : List (List ℕ)) → IsLog (D.view disks.old) self.old entries → EachImage (D.view disks.new) (device_of self.old) (IsBeforeOrWith entries payload.now) }

        ensures others { KeepsOthers (device_of self.old) (D.view disks.old) (D.view disks.new) (result_err result) }
        ensures cause { HasCause (D.view disks.old) (D.view disks.new) (result_err result) }
        ensures full { FullExactly (device_of self.old) ((D.view disks.old).limit (device_of self.old)) (gate_of self.old + 10 + length payload.now) (result_err result) }
        ensures untouched { (n : ℕ) → result ≡ Err (Full n) → IsUnchanged (D.view disks.old) (D.view disks.new) (device_of self.old) }
        ensures device { device_of self.new ≡ device_of self.old }
        ensures err { OnErr result (self.new ≡ self.old) }
    {
        let mut frame = new_frame(alloc, payload.len())?;
        frame.extend_from_slice(payload)?;
        self.append_frame(disks, frame)
    }

    /// Adds the entry whose payload stands in a frame of `new_frame`, as `append` does, and writes it from where it stands.
    pub fn append_frame<D: Disks>(&mut self, disks: &mut D, frame: Vec<u8>) -> Result<(), DiskErr>
        requires log { (entries : List (List ℕ)) × IsLog (D.view disks.old) self.old entries }
        requires front { 8 ≤ length frame.items }

        ensures ok { (entries : List (List ℕ)) → IsLog (D.view disks.old) self.old entries → OnOk result (IsLog (D.view disks.new) self.new (entries ++ payload_in frame.items ∷ [])) }
        ensures images { (entries : List (List ℕ)) → IsLog (D.view disks.old) self.old entries → EachImage (D.view disks.new) (device_of self.old) (IsBeforeOrWith entries (payload_in frame.items)) }

        ensures others { KeepsOthers (device_of self.old) (D.view disks.old) (D.view disks.new) (result_err result) }
        ensures cause { HasCause (D.view disks.old) (D.view disks.new) (result_err result) }
        ensures full { FullExactly (device_of self.old) ((D.view disks.old).limit (device_of self.old)) (gate_of self.old + 10 + length (payload_in frame.items)) (result_err result) }
        ensures untouched { (n : ℕ) → result ≡ Err (Full n) → IsUnchanged (D.view disks.old) (D.view disks.new) (device_of self.old) }
        ensures device { device_of self.new ≡ device_of self.old }
        ensures err { OnErr result (self.new ≡ self.old) }
    {
        let frame = closed(frame)?;
        write_and_sync(disks, self.dev, self.end + 1, &frame)?;
        write_and_sync(disks, self.dev, self.end, &[1])?;
        self.end += frame.len() as u64;
        self.count += 1;
        self.block = None;
        Ok(())
    }
}

/// A frame without a payload: eight bytes for its length, and room behind them for so many bytes and the next closed gate. The
/// payload is put behind those eight, and `GateLog::append_frame` adds it to a log.
pub fn new_frame(alloc: Global, room: usize) -> Result<Vec<u8>, AllocError>
    ensures { IfOk result (λ frame. frame.items ≡ front) }
{
    let mut frame = Vec::with_capacity(alloc, room.saturating_add(9))?;
    frame.extend_from_slice(&[0; 8])?;
    Ok(frame)
}

fn put_front(frame: &mut [u8], front: &[u8; 8])
    requires { 8 ≤ length frame.old }
    ensures { frame.new ≡ front.now ++ drop 8 frame.old }
{
    frame[..8].copy_from_slice(front);
}

// Puts the length of a frame's payload in front of it.
fn put_length(frame: &mut [u8])
    requires { 8 ≤ length frame.old }
    ensures { frame.new ≡ framed (payload_in frame.old) }
{
    let size = frame.len() as u64 - 8;
    put_front(frame, &size.to_be_bytes());
}

// What is written behind the closed gate: the length, the payload, and the next closed gate.
fn closed(mut frame: Vec<u8>) -> Result<Vec<u8>, AllocError>
    requires { 8 ≤ length frame.items }
    ensures { IfOk result (λ closed. closed.items ≡ framed (payload_in frame.items) ++ 0 ∷ []) }
{
    put_length(&mut frame);
    frame.push(0)?;
    Ok(frame)
}
