//! A partition is opened again while it stands, as a node does that restarts.

ghost use Rattle.salt_disk.specs.Disks.{HasCause, IsSettled, KeepsAll, OnlyFails};
ghost use Rattle.salt_model.specs.Tables.{Tables};
ghost use Rattle.salt_partition.specs.Openings.{OpensAs, part_fault};
ghost use Rattle.salt_partition.specs.Partitions.{IsPartition, log_gate, number_of, rows_in};
ghost use Rattle.salt_partition.specs.Reopening.{GoesOn, IsLastIn, IsLater, LaterThan, StandsToReopen};
ghost use Rattle.salt_stands.specs.Partition.{pages_device, part_device};
ghost use Rattle.salt_stands.specs.Pieces.{PartView};
ghost use Rattle.salt_values.specs.declared.id.Id.{Id};
ghost use Rattle.std.specs.Prelude.{IfOk, IsTrue, List, None, OnErr, OnOk, ℕ, ◌+◌, ◌<◌, ◌↔◌, ◌≡◌};
ghost use Rattle.std.specs.Result.{result_err};

use crate::open::open_partition;
use crate::partition::Partition;
use salt_disk::{DiskErr, Disks};
use salt_gatelog::{PairErr, rejected};
use salt_values::{Changes, Ids};
use std::alloc::{AllocError, Global};

/// Opens a partition whose devices have no fault. Disks that give other bytes have failed.
fn opened_again<D: Disks>(
    alloc: Global,
    disks: &mut D,
    part: u8,
    boot: u64,
    decided: &Ids,
) -> Result<Partition, DiskErr>
    requires known { pages_device part < (D.view disks.old).count }
    requires settled_a { IsSettled (D.view disks.old) (part_device part) }
    requires settled_b { IsSettled (D.view disks.old) (part_device part + 1) }
    requires sound { IsTrue (D.view disks.old).told → part_fault boot decided.now part (D.view disks.old).bytes ≡ None }
    ensures opens { IfOk result (λ x. OpensAs (D.view disks.old) (D.view disks.new) x boot decided.now part) }
    ensures kept { KeepsAll (D.view disks.old) (D.view disks.new) (result_err result) }
    ensures cause { HasCause (D.view disks.old) (D.view disks.new) (result_err result) }
    ensures answers { OnlyFails (result_err result) }
{
    match open_partition(alloc, disks, part, boot, decided) {
        Ok(partition) => Ok(partition),
        Err(PairErr::NotSalt(_)) => Err(rejected(disks)),
        Err(PairErr::Disk(e)) => Err(e),
    }
}

impl Partition {
    /// Whether it goes on from another value: from a log on the same device that ends where that one's does and spells NULL alike, and
    /// with these changes made in its rows.
    fn is_later(&self, before: &Partition, changes: &Changes) -> Result<bool, AllocError>
        ensures { IfOk result (λ later. (t : Tables) → rows_in before.now ≡ t.list → IsTrue later ↔ IsLater self.now before.now changes.now t) }
    {
        if self.device() != before.device() {
            return Ok(false);
        }
        if self.log.gate() != before.log.gate() {
            return Ok(false);
        }
        if self.nulls() != before.nulls() {
            return Ok(false);
        }
        self.has_rows_with(before, changes)
    }

    /// What its devices give, where that goes on from it: from rows in memory, with these changes. What goes on otherwise is none that
    /// was written: then the disks have failed.
    fn found_later<D: Disks>(
        &self,
        disks: &mut D,
        boot: u64,
        decided: &Ids,
        changes: &Changes,
    ) -> Result<Partition, DiskErr>
        requires { StandsToReopen (D.view disks.old) self.now boot decided.now changes.now }
        ensures opens { IfOk result (λ x. OpensAs (D.view disks.old) (D.view disks.new) x boot decided.now (number_of self.now)) }
        ensures later { IfOk result (λ x. LaterThan x self.now changes.now) }
        ensures kept { KeepsAll (D.view disks.old) (D.view disks.new) (result_err result) }
        ensures cause { HasCause (D.view disks.old) (D.view disks.new) (result_err result) }
        ensures answers { OnlyFails (result_err result) }
    {
        let opened = opened_again(self.alloc, disks, self.part, boot, decided)?;
        let later = opened.is_later(self, changes)?;
        if !later {
            return Err(rejected(disks));
        }
        Ok(opened)
    }

    /// Opens it again under a coordinator of this boot that has decided these units, and takes what its devices give in place of what
    /// was in memory: its rows, with these changes, which are those of the unit that was prepared last where that is decided now, and
    /// else none. It writes nothing. What goes on otherwise is none that was written: then the disks have failed. After an error the
    /// partition is as it was.
    pub fn reopen<D: Disks>(
        &mut self,
        disks: &mut D,
        boot: u64,
        decided: &Ids,
        changes: &Changes,
    ) -> Result<(), DiskErr>
        requires { StandsToReopen (D.view disks.old) self.old boot decided.now changes.now }
        ensures ok { (p : ℕ) (v : PartView) (applied now : List Id) → IsPartition (D.view disks.old) self.old p v applied → GoesOn v applied now changes.now
            → (IsTrue (D.view disks.old).told → decided.now ≡ now) → OnOk result (IsPartition (D.view disks.new) self.new p v now) }
        ensures gate { log_gate self.new ≡ log_gate self.old }
        ensures err { OnErr result (self.new ≡ self.old) }
        ensures kept { KeepsAll (D.view disks.old) (D.view disks.new) (result_err result) }
        ensures cause { HasCause (D.view disks.old) (D.view disks.new) (result_err result) }
        ensures answers { OnlyFails (result_err result) }
    {
        let opened = self.found_later(disks, boot, decided, changes)?;
        let Partition {
            alloc: _,
            part: _,
            nulls: _,
            log,
            last: _last,
            rows,
        } = opened;
        self.log = log;
        self.rows = rows;
        Ok(())
    }

    /// Opens it again as `reopen`, where the unit that was prepared last is decided now, and gives what its devices give: it stands
    /// itself as it did.
    pub fn opened_anew<D: Disks>(
        &self,
        disks: &mut D,
        boot: u64,
        decided: &Ids,
        changes: &Changes,
    ) -> Result<Partition, DiskErr>
        requires { StandsToReopen (D.view disks.old) self.now boot decided.now changes.now }
        ensures ok { (p : ℕ) (v : PartView) (applied now : List Id) → IsPartition (D.view disks.old) self.now p v applied → GoesOn v applied now changes.now → IsLastIn now v.log.prepared
            → (IsTrue (D.view disks.old).told → decided.now ≡ now) → IfOk result (λ x. IsPartition (D.view disks.new) x p v now) }
        ensures kept { KeepsAll (D.view disks.old) (D.view disks.new) (result_err result) }
        ensures cause { HasCause (D.view disks.old) (D.view disks.new) (result_err result) }
        ensures answers { OnlyFails (result_err result) }
    {
        let opened = self.found_later(disks, boot, decided, changes)?;
        Ok(opened)
    }
}
