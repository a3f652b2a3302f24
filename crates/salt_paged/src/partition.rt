//! The partition, and what is done in it.

ghost use Rattle.salt_bytes.specs.Log.{entries_in};
ghost use Rattle.salt_bytes.specs.Page.{page_place};
ghost use Rattle.salt_bytes.specs.Partition.{spell_prepared};
ghost use Rattle.salt_checkpoint.specs.Sides.{KeepsNamed};
ghost use Rattle.salt_directory.specs.Bytes.{IsWithin, bytes_of_changes, bytes_of_entries};
ghost use Rattle.salt_directory.specs.Loading.{HasLoaded};
ghost use Rattle.salt_disk.specs.Disks.{EachImage, FullExactly, FullOnly, HasCause, IsUnchanged, KeepsAll, KeepsOthers, OnlyFails, UnlessDown};
ghost use Rattle.salt_disk.specs.declared.disks.DiskErr.TheVariants.{Full};
ghost use Rattle.salt_gatelog.specs.Log.{IsBeforeOrWith};
ghost use Rattle.salt_model.specs.Tables.{place, row_at};
ghost use Rattle.salt_partition.specs.Partitions.{IsPreparedLast, MayPrepare, changes_in, prepared};
ghost use Rattle.salt_paged.specs.Partitions.{IsPartition, StandsOnDevices, StandsFor, StandsWith, log_device, log_gate, number_of, page_count, pages_of, spells_nulls, unit_count};
ghost use Rattle.salt_stands.specs.Partition.{part_tables};
ghost use Rattle.salt_stands.specs.Pieces.{PartView, with_prepared_unit};
ghost use Rattle.salt_values.specs.declared.id.Id.{Id};
ghost use Rattle.std.specs.Prelude.{Err, IfOk, IsTrue, List, OnOk, Some, [], length, option_map, slice_get, ℕ, ◌+◌, ◌++◌, ◌∷◌, ◌≡◌};
ghost use Rattle.std.specs.Result.{result_err};

use salt_codec::{Header, PreparedUnit, has_nulls};
use salt_disk::{DiskErr, Disks};
use salt_gatelog::GateLog;
use salt_loaded::Loading;
use salt_partition::{Side, changes_copied, prepared_frame, unit_told};
use salt_ranges::KeyRange;
use salt_rows::RowStore;
use salt_values::{Changes, Id, Key, Row};
use sqlite_items::Items;
use std::alloc::Global;

/// One partition of the rows, as its pages, its log and the units that were applied make them.
#[derive(Drop)]
pub struct Partition {
    pub(crate) alloc: Global,
    pub(crate) part: u8,
    // what the log's first entry says
    pub(crate) header: Header,
    // which log of the pair counts
    pub(crate) side: Side,
    pub(crate) log: GateLog,
    // the unit that was prepared last, until it is applied
    pub(crate) last: Option<PreparedUnit>,
    pub(crate) rows: RowStore,
}

impl Partition {
    /// Its number.
    pub fn number(&self) -> u8
        ensures { result ≡ number_of self.now }
    {
        self.part
    }

    /// The device of the log that counts.
    pub fn device(&self) -> u32
        ensures { result ≡ log_device self.now }
    {
        self.log.device()
    }

    /// Whether NULL is spelled in its log, as the log's format tells.
    pub fn nulls(&self) -> bool
        ensures { result ≡ spells_nulls self.now }
    {
        has_nulls(self.header.format)
    }

    /// How many units are prepared in its log.
    pub fn prepared_count(&self) -> u64
        ensures { result ≡ unit_count self.now }
    {
        self.log.count().saturating_sub(1)
    }

    /// How many pages it has.
    pub fn page_count(&self) -> usize
        ensures { result ≡ page_count self.now }
    {
        self.rows.page_count()
    }

    /// Prepares a unit: its changes become the last entry of the log, and the rows stay. Whatever the call answers, each image of
    /// the log's device has the entries from before, with the new one or without it. `Full` comes where the entry and the next
    /// closed gate would pass the device's limit. After an error the partition is opened again before it is used.
    pub fn prepare<D: Disks>(
        &mut self,
        disks: &mut D,
        unit: Id,
        changes: &Changes,
    ) -> Result<(), DiskErr>
        requires { StandsFor (D.view disks.old) self.old unit changes.now }

        ensures ok { (p : ℕ) (v : PartView) (applied : List Id) → IsPartition (D.view disks.old) self.old p v applied → MayPrepare v applied unit changes.now
            → OnOk result (IsPartition (D.view disks.new) self.new p (with_prepared_unit v (prepared unit changes.now)) applied) }
        ensures images { (entries : List (List ℕ)) → IsTrue (D.view disks.old).told → entries_in ((D.view disks.old).bytes (log_device self.old)) ≡ Some entries
            → EachImage (D.view disks.new) (log_device self.old) (IsBeforeOrWith entries (spell_prepared (prepared unit changes.now))) }
        ensures others { KeepsOthers (log_device self.old) (D.view disks.old) (D.view disks.new) (result_err result) }
        ensures cause { HasCause (D.view disks.old) (D.view disks.new) (result_err result) }
        ensures full { FullExactly (log_device self.old) ((D.view disks.old).limit (log_device self.old)) (log_gate self.old + 10 + length (spell_prepared (prepared unit changes.now))) (result_err result) }
        ensures untouched { (n : ℕ) → result ≡ Err (Full n) → IsUnchanged (D.view disks.old) (D.view disks.new) (log_device self.old) }
    {
        let frame = prepared_frame(self.alloc, unit, changes.as_slice())?;
        let changes = changes_copied(self.alloc, changes.as_slice())?;
        self.last = Some(PreparedUnit { unit, changes });
        self.log.append_frame(disks, frame)
    }

    /// Applies the unit that was prepared last: its changes are made in the rows. Pages may be written then, to sides that the header
    /// does not name, and none is made stable: whatever the call answers, each image of the pages is one from before, but for such
    /// sides. There are at most as many pages as before, or as the rows and those of the unit can fill together, and one; `Full`
    /// comes only where they pass the device's limit. After an error the partition is opened again before it is used.
    pub fn apply<D: Disks>(&mut self, disks: &mut D, unit: Id) -> Result<(), DiskErr>
        requires { StandsWith (D.view disks.old) self.old unit }
        ensures ok { (p : ℕ) (v : PartView) (applied : List Id) → IsPartition (D.view disks.old) self.old p v applied → IsPreparedLast v applied unit
            → OnOk result (IsPartition (D.view disks.new) self.new p v (applied ++ unit ∷ [])) }
        ensures images { (p : ℕ) (v : PartView) (applied : List Id) → IsPartition (D.view disks.old) self.old p v applied → KeepsNamed v.log.header.sides (D.view disks.old) (D.view disks.new) (pages_of self.old) }
        ensures pages { (p : ℕ) (v : PartView) (applied : List Id) → IsPartition (D.view disks.old) self.old p v applied → (last : IsPreparedLast v applied unit) → IsTrue (D.view disks.old).told
            → IsWithin (page_count self.old) (bytes_of_entries (part_tables applied v.log v.rows).list + bytes_of_changes last.changes) (page_count self.new) }
        ensures others { KeepsOthers (pages_of self.old) (D.view disks.old) (D.view disks.new) (result_err result) }
        ensures cause { HasCause (D.view disks.old) (D.view disks.new) (result_err result) }
        ensures full { FullOnly (pages_of self.old) ((D.view disks.old).limit (pages_of self.old)) (page_place (page_count self.new) 0) (result_err result) }
    {
        let _ = unit;
        // by the condition it is the unit that is kept
        if let Some(prepared) = self.last.take() {
            self.rows.apply(disks, prepared.changes.as_slice())?;
        }
        Ok(())
    }

    /// The row of a key, `None` exactly where there is none. It writes nothing. A row that is not where it is kept, which only disks
    /// can give that don't tell their bytes, is a fault.
    pub fn get<D: Disks>(
        &mut self,
        disks: &mut D,
        table: u16,
        key: &Key,
    ) -> Result<Option<Row>, DiskErr>
        requires { StandsOnDevices (D.view disks.old) self.old }
        ensures row { (p : ℕ) (v : PartView) (applied : List Id) → IsPartition (D.view disks.old) self.old p v applied → IsTrue (D.view disks.old).told
            → IfOk result (λ row. row ≡ row_at (place table key.now) (part_tables applied v.log v.rows)) }
        ensures stands { (p : ℕ) (v : PartView) (applied : List Id) → IsPartition (D.view disks.old) self.old p v applied
            → UnlessDown (result_err result) (IsPartition (D.view disks.new) self.new p v applied) }
        ensures kept { KeepsAll (D.view disks.old) (D.view disks.new) (result_err result) }
        ensures cause { HasCause (D.view disks.old) (D.view disks.new) (result_err result) }
        ensures answers { OnlyFails (result_err result) }
    {
        self.rows.get(disks, table, key)
    }

    /// The rows of a range are loaded. It writes nothing.
    pub fn load<D: Disks>(
        &mut self,
        disks: &mut D,
        range: &KeyRange,
        out: &mut Loading,
    ) -> Result<(), DiskErr>
        requires { StandsOnDevices (D.view disks.old) self.old }
        ensures rows { (p : ℕ) (v : PartView) (applied : List Id) → IsPartition (D.view disks.old) self.old p v applied → IsTrue (D.view disks.old).told
            → OnOk result (HasLoaded range.now (part_tables applied v.log v.rows) out.old out.new) }
        ensures stands { (p : ℕ) (v : PartView) (applied : List Id) → IsPartition (D.view disks.old) self.old p v applied
            → UnlessDown (result_err result) (IsPartition (D.view disks.new) self.new p v applied) }
        ensures kept { KeepsAll (D.view disks.old) (D.view disks.new) (result_err result) }
        ensures cause { HasCause (D.view disks.old) (D.view disks.new) (result_err result) }
        ensures answers { OnlyFails (result_err result) }
    {
        self.rows.load(disks, range, out)
    }

    /// The changes of prepared entry `i` of the log, counted from 0, `None` exactly past the last one.
    pub fn logged<D: Disks>(&mut self, disks: &mut D, i: u64) -> Result<Option<Changes>, DiskErr>
        requires { StandsOnDevices (D.view disks.old) self.old }
        ensures changes { (p : ℕ) (v : PartView) (applied : List Id) → IsPartition (D.view disks.old) self.old p v applied → IsTrue (D.view disks.old).told
            → IfOk result (λ found. found ≡ option_map changes_in (slice_get v.log.prepared i)) }
        ensures stands { (p : ℕ) (v : PartView) (applied : List Id) → IsPartition (D.view disks.old) self.old p v applied
            → UnlessDown (result_err result) (IsPartition (D.view disks.new) self.new p v applied) }
        ensures kept { KeepsAll (D.view disks.old) (D.view disks.new) (result_err result) }
        ensures cause { HasCause (D.view disks.old) (D.view disks.new) (result_err result) }
        ensures answers { OnlyFails (result_err result) }
    {
        if self.log.count() - 1 <= i {
            return Ok(None);
        }
        let nulls = has_nulls(self.header.format);
        let prepared = unit_told(self.alloc, disks, &mut self.log, nulls, i + 1)?;
        Ok(Some(Items::from_vec(prepared.changes)))
    }
}
