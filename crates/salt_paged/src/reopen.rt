//! A partition is opened again while it stands, as a node does that restarts.

ghost use Rattle.salt_checkpoint.specs.Sides.{KeepsNamed};
ghost use Rattle.salt_codec.specs.Entries.{header_of};
ghost use Rattle.salt_disk.specs.Disks.{HasCause, IsSettled, KeepsOthers};
ghost use Rattle.salt_disk.specs.declared.disks.DiskErr.TheVariants.{Full};
ghost use Rattle.salt_paged.specs.Openings.{CountsWith, OpensAs, SettlesNamed, part_fault};
ghost use Rattle.salt_paged.specs.Partitions.{IsPartition, log_gate, number_of, pages_of};
ghost use Rattle.salt_paged.specs.Reopening.{AreDecided, IsSameLog, StandsToReopen};
ghost use Rattle.salt_stands.specs.Partition.{pages_device, part_device};
ghost use Rattle.salt_stands.specs.PartitionLog.{PartitionLog};
ghost use Rattle.salt_stands.specs.Pieces.{PartView};
ghost use Rattle.salt_values.specs.declared.id.Id.{Id};
ghost use Rattle.std.specs.Prelude.{Err, IfOk, IsTrue, List, None, OnErr, OnOk, ℕ, ◌+◌, ◌<◌, ◌↔◌, ◌≡◌};
ghost use Rattle.std.specs.Result.{result_err};

use crate::open::open_partition;
use crate::partition::Partition;
use salt_codec::Header;
use salt_disk::{DiskErr, Disks};
use salt_gatelog::{PairErr, rejected};
use salt_values::Ids;
use std::alloc::Global;

/// Whether two lists of sides are one.
fn are_same_sides(a: &[u8], b: &[u8]) -> bool
    ensures { IsTrue result ↔ (a.now ≡ b.now) }
{
    a == b
}

/// Whether two headers are one.
#[tactic(auto, using(crate::proofs::Reopened::other_format, crate::proofs::Reopened::other_generation, crate::proofs::Reopened::other_part, crate::proofs::Reopened::by_sides))]
fn is_same_header(a: &Header, b: &Header) -> bool
    ensures { IsTrue result ↔ (header_of a.now ≡ header_of b.now) }
{
    if a.format != b.format {
        return false;
    }
    if a.generation != b.generation {
        return false;
    }
    if a.part != b.part {
        return false;
    }
    are_same_sides(a.sides.as_slice(), b.sides.as_slice())
}

/// Opens a partition whose devices have no fault. Disks that give other bytes have failed.
fn opened_again<D: Disks>(
    alloc: Global,
    disks: &mut D,
    part: u8,
    boot: u64,
    decided: &Ids,
) -> Result<Partition, DiskErr>
    requires known { pages_device part < (D.view disks.old).count }
    requires settled_a { IsSettled (D.view disks.old) (part_device part) }
    requires settled_b { IsSettled (D.view disks.old) (part_device part + 1) }
    requires named { IsTrue (D.view disks.old).told → SettlesNamed (D.view disks.old) part }
    requires sound { IsTrue (D.view disks.old).told → part_fault boot decided.now part (D.view disks.old).bytes ≡ None }
    ensures opens { IfOk result (λ x. OpensAs (D.view disks.old) (D.view disks.new) x boot decided.now part) }
    ensures images { IsTrue (D.view disks.old).told → (log : PartitionLog) → CountsWith (D.view disks.old) part log → KeepsNamed log.header.sides (D.view disks.old) (D.view disks.new) (pages_device part) }
    ensures others { KeepsOthers (pages_device part) (D.view disks.old) (D.view disks.new) (result_err result) }
    ensures cause { HasCause (D.view disks.old) (D.view disks.new) (result_err result) }
    ensures device { (n : ℕ) → result ≡ Err (Full n) → n ≡ pages_device part }
{
    match open_partition(alloc, disks, part, boot, decided) {
        Ok(partition) => Ok(partition),
        Err(PairErr::NotSalt(_)) => Err(rejected(disks)),
        Err(PairErr::Disk(e)) => Err(e),
    }
}

impl Partition {
    /// Whether its log is another value's: it begins with the same header, on the same device, and ends there.
    #[tactic(auto, using(crate::proofs::Reopened::other_side, crate::proofs::Reopened::other_device, crate::proofs::Reopened::other_gate, crate::proofs::Reopened::by_header))]
    fn has_log_of(&self, before: &Partition) -> bool
        ensures { IsTrue result ↔ IsSameLog self.now before.now }
    {
        if self.side != before.side {
            return false;
        }
        if self.device() != before.device() {
            return false;
        }
        if self.log.gate() != before.log.gate() {
            return false;
        }
        is_same_header(&self.header, &before.header)
    }

    /// What its devices give, where that has the same log. Another one is none that was written: then the disks have failed.
    fn found_again<D: Disks>(
        &self,
        disks: &mut D,
        boot: u64,
        decided: &Ids,
    ) -> Result<Partition, DiskErr>
        requires { StandsToReopen (D.view disks.old) self.now boot decided.now }
        ensures opens { IfOk result (λ x. OpensAs (D.view disks.old) (D.view disks.new) x boot decided.now (number_of self.now)) }
        ensures same { IfOk result (λ x. IsSameLog x self.now) }
        ensures images { (p : ℕ) (v : PartView) (applied : List Id) → IsPartition (D.view disks.old) self.now p v applied → IsTrue (D.view disks.old).told
            → KeepsNamed v.log.header.sides (D.view disks.old) (D.view disks.new) (pages_of self.now) }
        ensures others { KeepsOthers (pages_of self.now) (D.view disks.old) (D.view disks.new) (result_err result) }
        ensures cause { HasCause (D.view disks.old) (D.view disks.new) (result_err result) }
        ensures device { (n : ℕ) → result ≡ Err (Full n) → n ≡ pages_of self.now }
    {
        let opened = opened_again(self.alloc, disks, self.part, boot, decided)?;
        let same = opened.has_log_of(self);
        if !same {
            return Err(rejected(disks));
        }
        Ok(opened)
    }

    /// Opens it again under a coordinator of this boot that has decided these units, and takes what its devices give in place of what
    /// was in memory. Pages may be written, to sides that the header does not name. A log that is not the one that stood was not written:
    /// then the disks have failed. After an error the partition is as it was.
    pub fn reopen<D: Disks>(
        &mut self,
        disks: &mut D,
        boot: u64,
        decided: &Ids,
    ) -> Result<(), DiskErr>
        requires { StandsToReopen (D.view disks.old) self.old boot decided.now }
        ensures ok { (p : ℕ) (v : PartView) (applied now : List Id) → IsPartition (D.view disks.old) self.old p v applied → AreDecided applied now
            → (IsTrue (D.view disks.old).told → decided.now ≡ now) → OnOk result (IsPartition (D.view disks.new) self.new p v now) }
        ensures gate { log_gate self.new ≡ log_gate self.old }
        ensures err { OnErr result (self.new ≡ self.old) }
        ensures images { (p : ℕ) (v : PartView) (applied : List Id) → IsPartition (D.view disks.old) self.old p v applied → IsTrue (D.view disks.old).told
            → KeepsNamed v.log.header.sides (D.view disks.old) (D.view disks.new) (pages_of self.old) }
        ensures others { KeepsOthers (pages_of self.old) (D.view disks.old) (D.view disks.new) (result_err result) }
        ensures cause { HasCause (D.view disks.old) (D.view disks.new) (result_err result) }
        ensures device { (n : ℕ) → result ≡ Err (Full n) → n ≡ pages_of self.old }
    {
        let opened = self.found_again(disks, boot, decided)?;
        let Partition {
            alloc: _,
            part: _,
            header: _header,
            side: _,
            log,
            last: _last,
            rows,
        } = opened;
        self.log = log;
        self.rows = rows;
        Ok(())
    }
}
