//! A log that a device has is opened.
ghost use Rattle.std.specs.Prelude.{◌≡◌, ℕ, ◌+◌, ◌<◌, ◌≤◌, ◌^◌, ◌*◌, List, length, drop, IsTrue, IfOk, IfErr, OnOk, Some};
ghost use Rattle.std.specs.Result.{result_err};
ghost use Rattle.std.specs.Int.{w64, to_be_bytes};
ghost use Rattle.salt_disk.specs.Disks.{IsSettled, KeepsAll, HasCause, OnlyFails};
ghost use Rattle.salt_disk.specs.declared.disks.DiskErr.TheVariants.{Memory};
ghost use Rattle.salt_bytes.specs.Log.{entries_in};
ghost use Rattle.salt_gatelog.specs.Block.{IsBlock};
ghost use Rattle.salt_gatelog.specs.Log.{count_of, device_of};
ghost use Rattle.salt_gatelog.specs.Open.{IsStep, IsPast, disk_err, IsWhy, OpensAs};
ghost use Rattle.salt_gatelog.specs.declared.open.LogErr.TheVariants.{Disk};

use crate::GateLog;
use crate::block::Block;
use salt_disk::{DiskErr, Disks};
use salt_values::Steps;
use std::alloc::{AllocError, Global};
use std::marker::Brand;
use std::sync::ledger::{Blank, Ledger};

/// Why no log is opened.
#[derive(Clone, Copy, Debug, PartialEq, Eq)]
pub enum LogErr {
    /// The device is empty, is one byte, or does not begin with an open gate.
    Blank,
    /// The device begins with an open gate, and its entries do not end in a closed one.
    NotLog,
    /// A device call has not done what it was asked to.
    Disk(DiskErr),
}

impl From<DiskErr> for LogErr {
    ghost from_gives = { λ e r. r ≡ Disk e };

    fn from(e: DiskErr) -> Self {
        LogErr::Disk(e)
    }
}

impl From<AllocError> for LogErr {
    ghost from_gives = { λ _ r. r ≡ Disk Memory };

    fn from(_: AllocError) -> Self {
        LogErr::Disk(DiskErr::Memory)
    }
}

/// What stands at a place.
#[derive(Clone, Copy, Debug)]
pub enum Step {
    /// A closed gate.
    Closed,
    /// An open gate and a length, and where the next gate stands if the payload is whole.
    Entry(u64),
    /// No byte, or an open gate alone.
    Ends,
    /// An open gate, and too few bytes behind it.
    Cut,
}

/// The number that eight bytes spell.
pub fn size_of(bytes: &[u8; 8]) -> u64
    ensures { to_be_bytes w64 result ≡ bytes.now }
{
    u64::from_be_bytes(*bytes)
}

/// What stands at a place of a device, of which a piece is in hand.
pub fn step_at<D: Disks>(
    disks: &mut D,
    dev: u32,
    at: u64,
    block: &mut Block,
) -> Result<Step, DiskErr>
    requires known { dev < (D.view disks.old).count }
    requires block { IsBlock (D.view disks.old) dev block.old }
    ensures step { IfOk result (λ step. IsTrue (D.view disks.old).told → IsStep (drop at ((D.view disks.old).bytes dev)) at step) }
    ensures past { IfOk result (IsPast at) }
    ensures block { OnOk result (IsBlock (D.view disks.new) dev block.new) }
    ensures kept { KeepsAll (D.view disks.old) (D.view disks.new) (result_err result) }
    ensures cause { HasCause (D.view disks.old) (D.view disks.new) (result_err result) }
    ensures answers { OnlyFails (result_err result) }
{
    let mut gate = [0; 1];
    if block.read(disks, dev, at, &mut gate)? == 0 {
        return Ok(Step::Ends);
    }
    let Some(behind) = at.checked_add(1) else {
        return Ok(Step::Ends);
    };
    if gate[0] != 1 {
        return Ok(Step::Closed);
    }
    let mut spelled = [0; 8];
    let count = block.read(disks, dev, behind, &mut spelled)?;
    if count < 8 {
        return Ok(if count == 0 { Step::Ends } else { Step::Cut });
    }
    let size = size_of(&spelled);
    match behind.checked_add(8) {
        Some(start) => match start.checked_add(size) {
            Some(next) => Ok(Step::Entry(next)),
            None => Ok(Step::Cut),
        },
        None => Ok(Step::Cut),
    }
}

/// Opens a log as `open_log` does. Each place that is looked at is a step: there is one for each entry and one more for the closed
/// gate, and never more than one above a ninth of the device's bytes.
fn open_counted<D: Disks, L: Ledger>(
    disks: &mut D,
    dev: u32,
    block: &mut Block,
    steps: &mut Steps<L>,
) -> Result<GateLog, LogErr>
    requires known { dev < (D.view disks.old).count }
    requires settled { IsSettled (D.view disks.old) dev }
    requires block { IsBlock (D.view disks.old) dev block.old }
    ensures log { IfOk result (λ log. (device_of log ≡ dev) × OpensAs (D.view disks.old) (D.view disks.new) log) }
    ensures why { IsTrue (D.view disks.old).told → IfErr result (IsWhy ((D.view disks.old).bytes dev)) }
    ensures kept { KeepsAll (D.view disks.old) (D.view disks.new) (disk_err result) }
    ensures cause { HasCause (D.view disks.old) (D.view disks.new) (disk_err result) }
    ensures answers { OnlyFails (disk_err result) }
    ensures steps { IfOk result (λ log. steps.new ≡ steps.old + count_of log + 1) }
    ensures most { IsTrue (D.view disks.old).told → 9 * steps.new ≤ 9 * steps.old + 9 + length ((D.view disks.old).bytes dev) }
{
    let mut end = 0;
    for count in 0..u64::MAX {
        steps.tick();
        match step_at(disks, dev, end, block)? {
            Step::Closed => {
                return if count == 0 {
                    Err(LogErr::Blank)
                } else {
                    Ok(GateLog {
                        dev,
                        end,
                        count,
                        next: 0,
                        place: 0,
                        block: None,
                    })
                };
            }
            Step::Entry(next) => end = next,
            Step::Ends => {
                return if count == 0 {
                    Err(LogErr::Blank)
                } else {
                    Err(LogErr::NotLog)
                };
            }
            Step::Cut => return Err(LogErr::NotLog),
        }
    }
    Err(LogErr::NotLog)
}

/// Opens a log, and counts no steps.
fn open_anew<D: Disks, L: Ledger>(
    disks: &mut D,
    dev: u32,
    block: &mut Block,
    blank: Blank,
) -> Result<GateLog, LogErr>
    requires known { dev < (D.view disks.old).count }
    requires settled { IsSettled (D.view disks.old) dev }
    requires block { IsBlock (D.view disks.old) dev block.old }
    requires name { blank.name ≡ L.name }
    requires parts { blank.parts ≡ L.parts }
    requires some { 0 < blank.parts }
    ensures log { IfOk result (λ log. (device_of log ≡ dev) × OpensAs (D.view disks.old) (D.view disks.new) log) }
    ensures why { IsTrue (D.view disks.old).told → IfErr result (IsWhy ((D.view disks.old).bytes dev)) }
    ensures kept { KeepsAll (D.view disks.old) (D.view disks.new) (disk_err result) }
    ensures cause { HasCause (D.view disks.old) (D.view disks.new) (disk_err result) }
    ensures answers { OnlyFails (disk_err result) }
{
    let mut steps = Steps::<L>::new(blank);
    open_counted(disks, dev, block, &mut steps)
}

/// Opens the log of a device on which nothing is pending. It writes nothing.
pub fn open_log<D: Disks>(alloc: Global, disks: &mut D, dev: u32) -> Result<GateLog, LogErr>
    requires known { dev < (D.view disks.old).count }
    requires settled { IsSettled (D.view disks.old) dev }
    ensures log { IfOk result (λ log. (device_of log ≡ dev) × OpensAs (D.view disks.old) (D.view disks.new) log) }
    ensures why { IsTrue (D.view disks.old).told → IfErr result (IsWhy ((D.view disks.old).bytes dev)) }
    ensures kept { KeepsAll (D.view disks.old) (D.view disks.new) (disk_err result) }
    ensures cause { HasCause (D.view disks.old) (D.view disks.new) (disk_err result) }
    ensures answers { OnlyFails (disk_err result) }
{
    let mut block = Block::new(alloc)?;
    open_anew::<D, Brand>(disks, dev, &mut block, Blank::new(1))
}
