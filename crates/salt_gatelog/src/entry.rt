//! The entries of a log, read back.
ghost use Rattle.std.specs.Prelude.{◌≡◌, ◌⊎◌, false, ℕ, ◌+◌, ◌<◌, ◌≤◌, ◌++◌, ◌^◌, IfOk, IsTrue, List, None, OnErr, OnOk, Some, drop, length, slice_get, take};
ghost use Rattle.std.specs.Result.{result_err};
ghost use Rattle.salt_disk.specs.Disks.{HasCause, KeepsAll, OnlyFails, UnlessDown};
ghost use Rattle.salt_disk.specs.declared.disks.DiskErr.TheVariants.{Failed};
ghost use Rattle.salt_gatelog.specs.Block.{IsBlock, IsTaken};
ghost use Rattle.salt_gatelog.specs.Log.{IsLog, StandsAt, count_of, device_of};
ghost use Rattle.salt_gatelog.specs.Entry.{EntryEnds, HasMoved, IsAtFirst};

use crate::GateLog;
use crate::block::Block;
use crate::open::size_of;
use salt_disk::{DiskErr, Disks};
use std::alloc::{AllocError, Global};

/// What disks answer that gave other bytes than were written.
pub fn rejected<D: Disks>(disks: &mut D) -> DiskErr
    requires { (D.view disks.old).told ≡ false }
    ensures failed { result ≡ Failed }
    ensures kept { KeepsAll (D.view disks.old) (D.view disks.new) (Some Failed) }
    ensures cause { HasCause (D.view disks.old) (D.view disks.new) (Some Failed) }
{
    disks.reject();
    DiskErr::Failed
}

/// The length of the payload of the entry that stands at a place of a device, whose closed gate stands at `end`, and of which a
/// piece is in hand.
fn size_at<D: Disks>(
    disks: &mut D,
    dev: u32,
    at: u64,
    end: u64,
    block: &mut Block,
) -> Result<u64, DiskErr>
    requires known { dev < (D.view disks.old).count }
    requires within { at ≤ end }
    requires block { IsBlock (D.view disks.old) dev block.old }
    requires entry { IsTrue (D.view disks.old).told → (payload : List ℕ) × EntryEnds payload ((D.view disks.old).bytes dev) at end }
    ensures size { IfOk result (λ size. IsTrue (D.view disks.old).told → (payload : List ℕ) → EntryEnds payload ((D.view disks.old).bytes dev) at end → size ≡ length payload) }
    ensures ends { IfOk result (λ size. at + 9 + size ≤ end) }
    ensures block { OnOk result (IsBlock (D.view disks.new) dev block.new) }
    ensures kept { KeepsAll (D.view disks.old) (D.view disks.new) (result_err result) }
    ensures cause { HasCause (D.view disks.old) (D.view disks.new) (result_err result) }
    ensures answers { OnlyFails (result_err result) }
{
    if end - at < 9 {
        return Err(rejected(disks));
    }
    let mut spelled = [0; 8];
    let count = block.read(disks, dev, at + 1, &mut spelled)?;
    let size = size_of(&spelled);
    if count < 8 || size > end - at - 9 {
        return Err(rejected(disks));
    }
    Ok(size)
}

/// The bytes of a device, of which a piece is in hand, from a place on.
fn bytes_at<D: Disks>(
    alloc: Global,
    disks: &mut D,
    dev: u32,
    at: u64,
    size: u64,
    block: &mut Block,
) -> Result<Vec<u8>, DiskErr>
    requires known { dev < (D.view disks.old).count }
    requires block { IsBlock (D.view disks.old) dev block.old }
    requires there { IsTrue (D.view disks.old).told → size ≤ length (drop at ((D.view disks.old).bytes dev)) }
    ensures bytes { IfOk result (λ bytes. IsTrue (D.view disks.old).told → bytes.items ≡ take size (drop at ((D.view disks.old).bytes dev))) }
    ensures block { OnOk result (IsBlock (D.view disks.new) dev block.new) }
    ensures kept { KeepsAll (D.view disks.old) (D.view disks.new) (result_err result) }
    ensures cause { HasCause (D.view disks.old) (D.view disks.new) (result_err result) }
    ensures answers { OnlyFails (result_err result) }
{
    let mut bytes = vec![in alloc; 0; size as usize]?;
    let count = block.read(disks, dev, at, &mut bytes)?;
    if count < bytes.len() {
        return Err(rejected(disks));
    }
    Ok(bytes)
}

impl GateLog {
    /// Goes back to the first entry where the one that was found last stands behind this one.
    fn go_back(&mut self, i: u64)
        ensures before { self.new.next ≤ i }
        ensures place { (self.new ≡ self.old) ⊎ IsAtFirst self.old self.new }
    {
        if i < self.next {
            self.next = 0;
            self.place = 0;
        }
    }

    /// Takes the piece of the device that is in hand out of the log; else an empty one.
    fn take_block(&mut self, alloc: Global) -> Result<Block, AllocError>
        ensures block { IfOk result (IsTaken self.old.block) }
        ensures log { self.new ≡ record self.old { block = None } }
    {
        match self.block.take() {
            Some(block) => Ok(block),
            None => Block::new(alloc),
        }
    }

    /// Finds the entry of a number, from the one that was found last where it stands no later.
    fn find<D: Disks>(&mut self, disks: &mut D, i: u64, block: &mut Block) -> Result<(), DiskErr>
        requires log { (entries : List (List ℕ)) × IsLog (D.view disks.old) self.old entries }
        requires below { i < count_of self.old }
        requires block { IsBlock (D.view disks.old) (device_of self.old) block.old }
        ensures found { OnOk result (self.new.next ≡ i) }
        ensures moved { (entries : List (List ℕ)) → IsLog (D.view disks.old) self.old entries → UnlessDown (result_err result) (IsLog (D.view disks.new) self.new entries) }
        ensures same { HasMoved self.old self.new }
        ensures block { OnOk result (IsBlock (D.view disks.new) (device_of self.new) block.new) }
        ensures kept { KeepsAll (D.view disks.old) (D.view disks.new) (result_err result) }
        ensures cause { HasCause (D.view disks.old) (D.view disks.new) (result_err result) }
        ensures answers { OnlyFails (result_err result) }
    {
        self.go_back(i);
        while self.next < i {
            let size = size_at(disks, self.dev, self.place, self.end, block)?;
            self.next += 1;
            self.place += 9 + size;
        }
        Ok(())
    }

    /// Appends the payload of entry `i` to `out`, out of a piece of the device in hand.
    fn read_entry<D: Disks>(
        &mut self,
        alloc: Global,
        disks: &mut D,
        i: u64,
        block: &mut Block,
        out: &mut Vec<u8>,
    ) -> Result<(), DiskErr>
        requires log { (entries : List (List ℕ)) × IsLog (D.view disks.old) self.old entries }
        requires below { i < count_of self.old }
        requires block { IsBlock (D.view disks.old) (device_of self.old) block.old }

        ensures entry { OnOk result ((payload : List ℕ) × ((out.new.items ≡ out.old.items ++ payload)
            × ((entries : List (List ℕ)) → IsLog (D.view disks.old) self.old entries → IsTrue (D.view disks.old).told → Some payload ≡ slice_get entries i))) }
        ensures err { OnErr result (out.new.items ≡ out.old.items) }

        ensures log { (entries : List (List ℕ)) → IsLog (D.view disks.old) self.old entries → UnlessDown (result_err result) (IsLog (D.view disks.new) self.new entries) }
        ensures same { HasMoved self.old self.new }
        ensures block { OnOk result (IsBlock (D.view disks.new) (device_of self.new) block.new) }
        ensures kept { KeepsAll (D.view disks.old) (D.view disks.new) (result_err result) }
        ensures cause { HasCause (D.view disks.old) (D.view disks.new) (result_err result) }
        ensures answers { OnlyFails (result_err result) }
    {
        self.find(disks, i, block)?;
        let size = size_at(disks, self.dev, self.place, self.end, block)?;
        let payload = bytes_at(alloc, disks, self.dev, self.place + 9, size, block)?;
        out.extend_from_slice(&payload)?;
        self.next += 1;
        self.place += 9 + size;
        Ok(())
    }

    /// Appends the payload of entry `i`, counted from 0, to `out`. Entries are looked at from the one that was asked for last, or
    /// from the first on where that stands behind it, and the device is read by pieces of many entries. After an error `out` is
    /// as it was; after want of memory the log is good as before, and after a fault it is opened again before it is used.
    pub fn entry<D: Disks>(
        &mut self,
        alloc: Global,
        disks: &mut D,
        i: u64,
        out: &mut Vec<u8>,
    ) -> Result<(), DiskErr>
        requires log { (entries : List (List ℕ)) × IsLog (D.view disks.old) self.old entries }
        requires below { i < count_of self.old }

        ensures entry { OnOk result ((payload : List ℕ) × ((out.new.items ≡ out.old.items ++ payload)
            × ((entries : List (List ℕ)) → IsLog (D.view disks.old) self.old entries → IsTrue (D.view disks.old).told → Some payload ≡ slice_get entries i))) }
        ensures err { OnErr result (out.new.items ≡ out.old.items) }

        ensures log { (entries : List (List ℕ)) → IsLog (D.view disks.old) self.old entries → UnlessDown (result_err result) (IsLog (D.view disks.new) self.new entries) }
        ensures same { HasMoved self.old self.new }
        ensures kept { KeepsAll (D.view disks.old) (D.view disks.new) (result_err result) }
        ensures cause { HasCause (D.view disks.old) (D.view disks.new) (result_err result) }
        ensures answers { OnlyFails (result_err result) }
    {
        let mut block = self.take_block(alloc)?;
        self.read_entry(alloc, disks, i, &mut block, out)?;
        self.block = Some(block);
        Ok(())
    }
}
