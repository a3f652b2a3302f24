//! A partition's log that counts, and the pages that it names.

ghost use Rattle.salt_checkpoint.specs.Checkpoints.{NamedSettled};
ghost use Rattle.salt_disk.specs.Disks.{HasCause, IsSettled, KeepsAll, OnlyFails};
ghost use Rattle.salt_gatelog.specs.Pair.{pair_err};
ghost use Rattle.salt_paged.specs.Openings.{HasPages, IsFound, IsLogWhy, IsPagesWhy, ReadsAs, WasFound, found_log, found_device, found_pages, has_sound_pages};
ghost use Rattle.salt_partition.specs.Contents.{units_of};
ghost use Rattle.salt_stands.specs.OpenedPart.{is_known_log};
ghost use Rattle.salt_stands.specs.Partition.{pages_device, part_device};
ghost use Rattle.std.specs.Prelude.{IfErr, IfOk, IsTrue, OnOk, true, ℕ, ◌+◌, ◌<◌, ◌≡◌};

use crate::partition::Partition;
use crate::redo::ReadPartition;
use salt_codec::{PreparedUnit, has_nulls};
use salt_directory::RowJudge;
use salt_disk::{DiskErr, Disks};
use salt_gatelog::PairErr;
use salt_partition::{ReadLog, Side, chosen_log, is_known_log, log_of, pages_of};
use salt_rows::{RowStore, RowsErr, open_rows};
use salt_values::Ids;
use std::alloc::Global;

/// The log of a partition's pair that counts, read whole. Its pages are not read yet, and no unit is applied.
#[derive(Drop)]
pub struct FoundLog {
    pub(crate) alloc: Global,
    pub(crate) part: u8,
    // which log of the pair it is
    pub(crate) side: Side,
    pub(crate) log: ReadLog,
}

/// Reads the log of a partition that counts, under a coordinator of this boot that has decided these units with the partition's bit.
/// Nothing is pending on the pair, and nothing is written. `NotSalt` exactly of the device that a fault counts against: of the pair, or
/// of a log that names a later boot or lacks a decided unit. Whether its entries fit the tables is for the layer above to judge.
pub fn find_log<D: Disks>(
    alloc: Global,
    disks: &mut D,
    part: u8,
    boot: u64,
    decided: &Ids,
) -> Result<FoundLog, PairErr>
    requires known { pages_device part < (D.view disks.old).count }
    requires settled_a { IsSettled (D.view disks.old) (part_device part) }
    requires settled_b { IsSettled (D.view disks.old) (part_device part + 1) }
    ensures found { IfOk result (λ x. IsFound (D.view disks.new) x part × (is_known_log boot decided.now (found_log x) ≡ true)) }
    ensures why { IsTrue (D.view disks.old).told → IfErr result (IsLogWhy (D.view disks.old).bytes boot decided.now part) }
    ensures kept { KeepsAll (D.view disks.old) (D.view disks.new) (pair_err result) }
    ensures cause { HasCause (D.view disks.old) (D.view disks.new) (pair_err result) }
    ensures answers { OnlyFails (pair_err result) }
{
    let (side, log) = chosen_log(alloc, disks, part)?;
    let known = is_known_log(alloc, boot, decided.as_slice(), &log)?;
    if !known {
        return Err(PairErr::NotSalt(log_of(part, side)));
    }
    Ok(FoundLog {
        alloc,
        part,
        side,
        log,
    })
}

impl FoundLog {
    /// Its device.
    pub fn device(&self) -> u32
        ensures { result ≡ found_device self.now }
    {
        log_of(self.part, self.side)
    }

    /// Its format.
    pub fn format(&self) -> u8
        ensures { result ≡ (found_log self.now).header.format }
    {
        self.log.header.format
    }

    /// The units of its entries, in their order.
    pub fn units(&self) -> &[PreparedUnit]
        ensures { units_of result.now ≡ (found_log self.now).prepared }
    {
        self.log.units.as_slice()
    }

    /// The rows on the pages that it names, for whose places no memory is found from 2^32 pages on. `NotSalt` exactly where a side that
    /// is named spells no page, a row is not sound, or two rows stand at one place.
    fn rows<D: Disks, J: RowJudge>(&self, disks: &mut D, judge: &J) -> Result<RowStore, PairErr>
        requires found { WasFound (D.view disks.old) self.now }
        requires judge { J.can_judge judge.now }
        ensures rows { (p : ℕ) → IsFound (D.view disks.old) self.now p → IfOk result (HasPages (D.view disks.old) (D.view disks.new) p (found_log self.now)) }
        ensures judged { OnOk result (IsTrue (D.view disks.old).told → has_sound_pages (J.sound judge.now) (found_log self.now) ((D.view disks.old).bytes (found_pages self.now)) ≡ true) }
        ensures why { IsTrue (D.view disks.old).told → IfErr result (IsPagesWhy (J.sound judge.now) (D.view disks.old).bytes self.now) }
        ensures kept { KeepsAll (D.view disks.old) (D.view disks.new) (pair_err result) }
        ensures cause { HasCause (D.view disks.old) (D.view disks.new) (pair_err result) }
        ensures answers { OnlyFails (pair_err result) }
    {
        let header = &self.log.header;
        let sides = header.sides.as_slice();
        if sides.len() > u32::MAX as usize {
            return Err(PairErr::Disk(DiskErr::Memory));
        }
        let pages = pages_of(self.part);
        match open_rows(
            self.alloc,
            disks,
            pages,
            has_nulls(header.format),
            sides,
            judge,
        ) {
            Ok(rows) => Ok(rows),
            Err(RowsErr::NotPage) => Err(PairErr::NotSalt(pages)),
            Err(RowsErr::NotRow) => Err(PairErr::NotSalt(pages)),
            Err(RowsErr::Disk(e)) => Err(PairErr::Disk(e)),
        }
    }

    /// Reads the pages that it names, on which nothing is pending, and asks the judge of each row. It writes nothing, and no unit is
    /// applied: so a partition that is read after it may still be refused. `NotSalt` exactly of the pages device, where a side that is
    /// named spells no page, a row is not sound, or two rows stand at one place.
    pub fn read_pages<D: Disks, J: RowJudge>(
        self,
        disks: &mut D,
        judge: &J,
    ) -> Result<ReadPartition, PairErr>
        requires found { WasFound (D.view disks.old) self }
        requires named { IsTrue (D.view disks.old).told → NamedSettled (found_log self).header.sides (D.view disks.old) (found_pages self) }
        requires judge { J.can_judge judge.now }
        ensures reads { (p : ℕ) → IsFound (D.view disks.old) self p → IfOk result (λ x. ReadsAs (D.view disks.new) x p self) }
        ensures judged { OnOk result (IsTrue (D.view disks.old).told → has_sound_pages (J.sound judge.now) (found_log self) ((D.view disks.old).bytes (found_pages self)) ≡ true) }
        ensures why { IsTrue (D.view disks.old).told → IfErr result (IsPagesWhy (J.sound judge.now) (D.view disks.old).bytes self) }
        ensures kept { KeepsAll (D.view disks.old) (D.view disks.new) (pair_err result) }
        ensures cause { HasCause (D.view disks.old) (D.view disks.new) (pair_err result) }
        ensures answers { OnlyFails (pair_err result) }
    {
        let rows = self.rows(disks, judge)?;
        let FoundLog {
            alloc,
            part,
            side,
            log,
        } = self;
        let ReadLog { log, header, units } = log;
        let partition = Partition {
            alloc,
            part,
            header,
            side,
            log,
            last: None,
            rows,
        };
        Ok(ReadPartition { partition, units })
    }
}
