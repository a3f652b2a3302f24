//! A piece of a device in hand: it is read once, and short reads are answered out of it.
ghost use Rattle.std.specs.Prelude.{◌≡◌, ℕ, ◌+◌, ◌<◌, ◌≤◌, ◌^◌, drop, length, IfOk, IsTrue, OnOk};
ghost use Rattle.std.specs.Result.{result_err};
ghost use Rattle.salt_disk.specs.Disks.{HasCause, IsRead, KeepsAll, OnlyFails};
ghost use Rattle.salt_gatelog.specs.Block.{IsBlock, IsEmpty};

use salt_disk::{DiskErr, Disks, copy_from};
use std::alloc::{AllocError, Global};

/// How many bytes are read at once.
const ROOM: usize = 16384;

/// A piece of a device.
#[derive(Debug, Drop)]
pub struct Block {
    // where it begins, how many bytes were asked for, and how many of them the device had
    pub from: u64,
    pub asked: usize,
    pub count: usize,
    pub bytes: Vec<u8>,
}

impl Block {
    /// Room for a piece, and no byte of a device.
    pub fn new(alloc: Global) -> Result<Block, AllocError>
        ensures { IfOk result IsEmpty }
    {
        let bytes = vec![in alloc; 0; ROOM]?;
        Ok(Block {
            from: 0,
            asked: 0,
            count: 0,
            bytes,
        })
    }

    /// Whether so many bytes from a place on were asked for.
    fn reaches(&self, at: u64, room: usize) -> bool
        ensures from { IsTrue result → self.now.from ≤ at }
        ensures fits { IsTrue result → at + room ≤ self.now.from + self.now.asked }
    {
        self.from <= at && room <= self.asked && at - self.from <= (self.asked - room) as u64
    }

    /// Takes the piece that begins at a place. After an error there is none.
    fn fill<D: Disks>(&mut self, disks: &mut D, dev: u32, at: u64) -> Result<(), DiskErr>
        requires { dev < (D.view disks.old).count }
        ensures from { OnOk result (self.new.from ≡ at) }
        ensures asked { OnOk result (self.new.asked ≡ length self.old.bytes.items) }
        ensures block { OnOk result (IsBlock (D.view disks.new) dev self.new) }
        ensures kept { KeepsAll (D.view disks.old) (D.view disks.new) (result_err result) }
        ensures cause { HasCause (D.view disks.old) (D.view disks.new) (result_err result) }
        ensures answers { OnlyFails (result_err result) }
    {
        self.asked = 0;
        self.count = 0;
        let count = disks.read(dev, at, &mut self.bytes)?;
        self.from = at;
        self.asked = self.bytes.len();
        self.count = count;
        Ok(())
    }

    /// Sees to it that the piece has so many bytes from a place on, or the device's last ones.
    fn reach<D: Disks>(
        &mut self,
        disks: &mut D,
        dev: u32,
        at: u64,
        room: usize,
    ) -> Result<(), DiskErr>
        requires known { dev < (D.view disks.old).count }
        requires fits { room ≤ length self.old.bytes.items }
        requires block { IsBlock (D.view disks.old) dev self.old }
        ensures from { OnOk result (self.new.from ≤ at) }
        ensures fits { OnOk result (at + room ≤ self.new.from + self.new.asked) }
        ensures block { OnOk result (IsBlock (D.view disks.new) dev self.new) }
        ensures kept { KeepsAll (D.view disks.old) (D.view disks.new) (result_err result) }
        ensures cause { HasCause (D.view disks.old) (D.view disks.new) (result_err result) }
        ensures answers { OnlyFails (result_err result) }
    {
        if self.reaches(at, room) {
            return Ok(());
        }
        self.fill(disks, dev, at)
    }

    /// Puts the device's bytes from `at` on at the start of `buf`, as `Disks::read` does, out of the piece in hand or of the next
    /// one. What is longer than a piece is read by itself.
    pub fn read<D: Disks>(
        &mut self,
        disks: &mut D,
        dev: u32,
        at: u64,
        buf: &mut [u8],
    ) -> Result<usize, DiskErr>
        requires known { dev < (D.view disks.old).count }
        requires block { IsBlock (D.view disks.old) dev self.old }
        ensures bytes { IfOk result (λ n. IsTrue (D.view disks.old).told → IsRead ((D.view disks.old).bytes dev) at buf.old buf.new n) }
        ensures within { IfOk result (λ n. n ≤ length buf.old) }
        ensures length { IfOk result (λ n. 0 < n → IsTrue (D.view disks.old).told → length ((D.view disks.old).bytes dev) < 2 ^ 64) }
        ensures block { OnOk result (IsBlock (D.view disks.new) dev self.new) }
        ensures kept { KeepsAll (D.view disks.old) (D.view disks.new) (result_err result) }
        ensures cause { HasCause (D.view disks.old) (D.view disks.new) (result_err result) }
        ensures answers { OnlyFails (result_err result) }
    {
        if self.bytes.len() < buf.len() {
            return disks.read(dev, at, buf);
        }
        self.reach(disks, dev, at, buf.len())?;
        Ok(copy_from(&self.bytes[..self.count], at - self.from, buf))
    }
}
