//! A partition of a new database.

ghost use Rattle.salt_bytes.specs.Log.{entries_in};
ghost use Rattle.salt_bytes.specs.Partition.{spell_partition_header};
ghost use Rattle.salt_codec.specs.Entries.{header_of};
ghost use Rattle.salt_disk.specs.Disks.{EachImage, HasCause, IsSettled, KeepsAll, KeepsBut, OnlyFails};
ghost use Rattle.salt_gatelog.specs.Log.{IsBeforeOrWith};
ghost use Rattle.salt_model.specs.Tables.{no_rows};
ghost use Rattle.salt_partition.specs.Openings.{FullAtLogs};
ghost use Rattle.salt_paged.specs.Openings.{AreBegun};
ghost use Rattle.salt_paged.specs.Partitions.{IsPartition};
ghost use Rattle.salt_rows.specs.Stores.{IsRowStore};
ghost use Rattle.salt_stands.specs.FirstOpening.{first_part_header, first_view};
ghost use Rattle.salt_stands.specs.LogDevices.{IsPartitionLog};
ghost use Rattle.salt_stands.specs.Partition.{pages_device, part_device};
ghost use Rattle.std.specs.Prelude.{IfOk, IsTrue, Some, [], length, ◌+◌, ◌<◌, ◌≡◌, ◌⊎◌};
ghost use Rattle.std.specs.Result.{result_err};

use crate::partition::Partition;
use salt_codec::{Header, spell_header};
use salt_directory::AnyRow;
use salt_disk::{DiskErr, Disks};
use salt_gatelog::{GateLog, create, rejected};
use salt_partition::{Side, log_a, pages_of};
use salt_rows::{RowStore, RowsErr, open_rows};
use sqlite_items::Items;
use std::alloc::Global;

/// The header of a new partition's log A.
fn first_header(alloc: Global, part: u8) -> Header
    ensures { header_of result ≡ first_part_header 2 part }
{
    Header {
        format: 2,
        generation: 1,
        part,
        sides: Items::new(alloc),
    }
}

/// A store without rows: no page is named, whatever stands on the pages device, of which the length is found.
fn empty_store<D: Disks>(alloc: Global, disks: &mut D, part: u8) -> Result<RowStore, DiskErr>
    requires { pages_device part < (D.view disks.old).count }
    ensures rows { IfOk result (λ rows. IsRowStore (D.view disks.new) rows (pages_device part) [] no_rows) }
    ensures kept { KeepsAll (D.view disks.old) (D.view disks.new) (result_err result) }
    ensures cause { HasCause (D.view disks.old) (D.view disks.new) (result_err result) }
    ensures answers { OnlyFails (result_err result) }
{
    match open_rows(alloc, disks, pages_of(part), true, &[], &AnyRow) {
        Ok(rows) => Ok(rows),
        // no side is named, so only disks that do not tell can give one that spells no page, or a row
        Err(RowsErr::NotPage) => Err(rejected(disks)),
        Err(RowsErr::NotRow) => Err(rejected(disks)),
        Err(RowsErr::Disk(e)) => Err(e),
    }
}

/// Begins a new partition's logs, whatever they hold, on which nothing is pending: log B is made blank, and log A gets a header alone.
/// Whatever the call answers, each image of log B is blank or has the bytes that it had, and each image of log A is that, or has the
/// header alone.
fn begin_logs<D: Disks>(
    alloc: Global,
    disks: &mut D,
    part: u8,
    header: &[u8],
) -> Result<GateLog, DiskErr>
    requires known { pages_device part < (D.view disks.old).count }
    requires settled_a { IsSettled (D.view disks.old) (part_device part) }
    requires settled_b { IsSettled (D.view disks.old) (part_device part + 1) }
    ensures begun { IfOk result (λ log. AreBegun (D.view disks.new) part log header.now) }
    ensures image_a { EachImage (D.view disks.new) (part_device part) (λ c. (c ≡ (D.view disks.old).bytes (part_device part)) ⊎ IsBeforeOrWith [] header.now c) }
    ensures image_b { EachImage (D.view disks.new) (part_device part + 1) (λ c. (entries_in c ≡ Some []) ⊎ (c ≡ (D.view disks.old).bytes (part_device part + 1))) }
    ensures others { KeepsBut (IsPartitionLog part) (D.view disks.old) (D.view disks.new) (result_err result) }
    ensures cause { HasCause (D.view disks.old) (D.view disks.new) (result_err result) }
    ensures full { IsTrue (D.view disks.old).told → FullAtLogs (D.view disks.new) (part_device part) (10 + length header.now) (result_err result) }
{
    create(disks, log_a(part) + 1)?;
    let mut log = create(disks, log_a(part))?;
    log.append(alloc, disks, header)?;
    Ok(log)
}

/// Makes a partition without rows, whatever its logs hold, on which nothing is pending: log B is made blank, and log A gets a
/// header alone. Whatever the call answers, each image of log B is blank or has the bytes that it had, and each image of log A is
/// that, or has the header alone.
pub fn create_partition<D: Disks>(
    alloc: Global,
    disks: &mut D,
    part: u8,
) -> Result<Partition, DiskErr>
    requires known { pages_device part < (D.view disks.old).count }
    requires settled_a { IsSettled (D.view disks.old) (part_device part) }
    requires settled_b { IsSettled (D.view disks.old) (part_device part + 1) }
    ensures made { IfOk result (λ x. IsPartition (D.view disks.new) x part (first_view 2 part) []) }
    ensures image_a { EachImage (D.view disks.new) (part_device part) (λ c. (c ≡ (D.view disks.old).bytes (part_device part)) ⊎ IsBeforeOrWith [] (spell_partition_header (first_part_header 2 part)) c) }
    ensures image_b { EachImage (D.view disks.new) (part_device part + 1) (λ c. (entries_in c ≡ Some []) ⊎ (c ≡ (D.view disks.old).bytes (part_device part + 1))) }
    ensures others { KeepsBut (IsPartitionLog part) (D.view disks.old) (D.view disks.new) (result_err result) }
    ensures cause { HasCause (D.view disks.old) (D.view disks.new) (result_err result) }
    ensures full { IsTrue (D.view disks.old).told → FullAtLogs (D.view disks.new) (part_device part) (10 + length (spell_partition_header (first_part_header 2 part))) (result_err result) }
{
    let header = first_header(alloc, part);
    let bytes = spell_header(alloc, &header)?;
    let rows = empty_store(alloc, disks, part)?;
    let log = begin_logs(alloc, disks, part, &bytes)?;
    Ok(Partition {
        alloc,
        part,
        header,
        side: Side::A,
        log,
        last: None,
        rows,
    })
}
