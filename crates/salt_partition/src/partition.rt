//! The partition, and what is done in it.

ghost use Rattle.salt_bytes.specs.Log.{entries_in};
ghost use Rattle.salt_bytes.specs.Partition.{prepared_in, spell_prepared};
ghost use Rattle.salt_disk.specs.Disks.{EachImage, FullExactly, HasCause, IsUnchanged, KeepsAll, KeepsOthers, OnlyFails, UnlessDown};
ghost use Rattle.salt_disk.specs.declared.disks.DiskErr.TheVariants.{Full, Memory};
ghost use Rattle.salt_disk.specs.declared.disks.DiskErr.{DiskErr};
ghost use Rattle.salt_eval.specs.Views.{next_row};
ghost use Rattle.salt_gatelog.specs.Log.{IsBeforeOrWith};
ghost use Rattle.salt_model.specs.Tables.{Tables, place, row_at, with_changes};
ghost use Rattle.salt_partition.specs.Partitions.{IsPartition, IsPreparedLast, MayPrepare, StandsOnDevices, StandsFor, StandsWith, changes_in, log_device, log_gate, number_of, prepared, rows_in, spells_nulls, unit_count};
ghost use Rattle.salt_stands.specs.Partition.{part_tables};
ghost use Rattle.salt_stands.specs.Pieces.{PartView, with_prepared_unit};
ghost use Rattle.salt_values.specs.declared.id.Id.{Id};
ghost use Rattle.std.specs.Option.{option_copied};
ghost use Rattle.std.specs.Prelude.{Err, IfOk, IsTrue, List, OnOk, Some, [], length, option_map, slice_get, ℕ, ◌+◌, ◌++◌, ◌∷◌, ◌↔◌, ◌≡◌};
ghost use Rattle.std.specs.Result.{result_err};

use crate::compared::are_rows_with;
use crate::copies::changes_copied;
use crate::frame::prepared_frame;
use crate::rows::make_changes;
use crate::units::unit_told;
use salt_codec::PreparedUnit;
use salt_disk::{DiskErr, Disks};
use salt_eval::{Tables, next_row};
use salt_gatelog::GateLog;
use salt_model::Place;
use salt_ranges::KeyRange;
use salt_values::{Changes, Id, Key, Row, TryCopy};
use sqlite_items::Items;
use std::alloc::{AllocError, Global};
use std::marker::Model;

/// One partition of the rows, as its log and the units that were applied make them.
#[derive(Drop)]
pub struct Partition {
    pub(crate) alloc: Global,
    pub(crate) part: u8,
    // whether NULL is spelled in its log
    pub(crate) nulls: bool,
    pub(crate) log: GateLog,
    // the unit that was prepared last, until it is applied
    pub(crate) last: Option<PreparedUnit>,
    pub(crate) rows: Tables,
}

impl Model for Partition {
    ghost use Rattle.salt_partition.specs.Shown.{Shown};

    ghost Value = { Shown };

    ghost view = { λ x. record { part = x.part; nulls = x.nulls; log = x.log; last = x.last; rows = x.rows.entries } };
}

impl Partition {
    /// Its number.
    pub fn number(&self) -> u8
        ensures { result ≡ number_of self.now }
    {
        self.part
    }

    /// The device of the log that counts.
    pub fn device(&self) -> u32
        ensures { result ≡ log_device self.now }
    {
        self.log.device()
    }

    /// Whether NULL is spelled in its log, as the log's format tells.
    pub fn nulls(&self) -> bool
        ensures { result ≡ spells_nulls self.now }
    {
        self.nulls
    }

    /// Its rows.
    pub fn rows(&self) -> &Tables
        ensures { result.now.entries ≡ rows_in self.now }
    {
        &self.rows
    }

    /// Whether its rows are those that changes make of another's. Both are as they were.
    pub fn has_rows_with(&self, other: &Partition, changes: &Changes) -> Result<bool, AllocError>
        ensures { IfOk result (λ has. (t : Tables) → rows_in other.now ≡ t.list → IsTrue has ↔ (rows_in self.now ≡ (with_changes changes.now t).list)) }
    {
        are_rows_with(self.alloc, &self.rows, &other.rows, changes.as_slice())
    }

    /// How many units are prepared in its log.
    pub fn prepared_count(&self) -> u64
        ensures { result ≡ unit_count self.now }
    {
        self.log.count().saturating_sub(1)
    }

    /// Prepares a unit: its changes become the last entry of the log, and the rows stay. Whatever the call answers, each image of
    /// the log's device has the entries from before, with the new one or without it. `Full` comes where the entry and the next
    /// closed gate would pass the device's limit. After an error the partition is opened again before it is used.
    pub fn prepare<D: Disks>(
        &mut self,
        disks: &mut D,
        unit: Id,
        changes: &Changes,
    ) -> Result<(), DiskErr>
        requires { StandsFor (D.view disks.old) self.old unit changes.now }

        ensures ok { (p : ℕ) (v : PartView) (applied : List Id) → IsPartition (D.view disks.old) self.old p v applied → MayPrepare v applied unit changes.now
            → OnOk result (IsPartition (D.view disks.new) self.new p (with_prepared_unit v (prepared unit changes.now)) applied) }
        ensures images { (entries : List (List ℕ)) → IsTrue (D.view disks.old).told → entries_in ((D.view disks.old).bytes (log_device self.old)) ≡ Some entries
            → EachImage (D.view disks.new) (log_device self.old) (IsBeforeOrWith entries (spell_prepared (prepared unit changes.now))) }
        ensures stay { rows_in self.new ≡ rows_in self.old }
        ensures others { KeepsOthers (log_device self.old) (D.view disks.old) (D.view disks.new) (result_err result) }
        ensures cause { HasCause (D.view disks.old) (D.view disks.new) (result_err result) }
        ensures full { FullExactly (log_device self.old) ((D.view disks.old).limit (log_device self.old)) (log_gate self.old + 10 + length (spell_prepared (prepared unit changes.now))) (result_err result) }
        ensures untouched { (n : ℕ) → result ≡ Err (Full n) → IsUnchanged (D.view disks.old) (D.view disks.new) (log_device self.old) }
    {
        let frame = prepared_frame(self.alloc, unit, changes.as_slice())?;
        let changes = changes_copied(self.alloc, changes.as_slice())?;
        self.last = Some(PreparedUnit { unit, changes });
        self.log.append_frame(disks, frame)
    }

    /// Applies the unit that was prepared last: its changes are made in the rows. No byte is written. After an error the partition
    /// is opened again before it is used.
    pub fn apply<D: Disks>(&mut self, disks: &mut D, unit: Id) -> Result<(), DiskErr>
        requires { StandsWith (D.view disks.old) self.old unit }
        ensures ok { (p : ℕ) (v : PartView) (applied : List Id) → IsPartition (D.view disks.old) self.old p v applied → IsPreparedLast v applied unit
            → OnOk result (IsPartition (D.view disks.new) self.new p v (applied ++ unit ∷ [])) }
        ensures kept { KeepsAll (D.view disks.old) (D.view disks.new) (result_err result) }
        ensures cause { HasCause (D.view disks.old) (D.view disks.new) (result_err result) }
        ensures answers { OnlyFails (result_err result) }
        ensures lacks { (e : DiskErr) → result ≡ Err e → e ≡ Memory }
    {
        let _ = disks;
        let _ = unit;
        // by the condition it is the unit that is kept
        if let Some(prepared) = self.last.take() {
            make_changes(&mut self.rows, prepared.changes)?;
        }
        Ok(())
    }

    /// The row of a key, `None` exactly where there is none.
    pub fn get<D: Disks>(
        &mut self,
        disks: &mut D,
        table: u16,
        key: &Key,
    ) -> Result<Option<Row>, DiskErr>
        requires { StandsOnDevices (D.view disks.old) self.old }
        ensures row { (p : ℕ) (v : PartView) (applied : List Id) → IsPartition (D.view disks.old) self.old p v applied
            → IfOk result (λ row. row ≡ row_at (place table key.now) (part_tables applied v.log v.rows)) }
        ensures stands { (p : ℕ) (v : PartView) (applied : List Id) → IsPartition (D.view disks.old) self.old p v applied
            → UnlessDown (result_err result) (IsPartition (D.view disks.new) self.new p v applied) }
        ensures stay { rows_in self.new ≡ rows_in self.old }
        ensures kept { KeepsAll (D.view disks.old) (D.view disks.new) (result_err result) }
        ensures cause { HasCause (D.view disks.old) (D.view disks.new) (result_err result) }
        ensures answers { OnlyFails (result_err result) }
    {
        let _ = disks;
        let place = Place {
            table,
            key: key.copy(self.alloc)?,
        };
        match self.rows.get(&place) {
            Some(row) => Ok(Some(row.copy(self.alloc)?)),
            None => Ok(None),
        }
    }

    /// The row of the least key in the range that is above `after`, where one is given; `None` exactly where there is none.
    pub fn next_in<D: Disks>(
        &mut self,
        disks: &mut D,
        table: u16,
        range: &KeyRange,
        after: Option<&Key>,
    ) -> Result<Option<Row>, DiskErr>
        requires { StandsOnDevices (D.view disks.old) self.old }
        ensures row { (p : ℕ) (v : PartView) (applied : List Id) → IsPartition (D.view disks.old) self.old p v applied
            → IfOk result (λ row. row ≡ next_row table range.now (option_copied after.entry) (part_tables applied v.log v.rows)) }
        ensures stands { (p : ℕ) (v : PartView) (applied : List Id) → IsPartition (D.view disks.old) self.old p v applied
            → UnlessDown (result_err result) (IsPartition (D.view disks.new) self.new p v applied) }
        ensures stay { rows_in self.new ≡ rows_in self.old }
        ensures kept { KeepsAll (D.view disks.old) (D.view disks.new) (result_err result) }
        ensures cause { HasCause (D.view disks.old) (D.view disks.new) (result_err result) }
        ensures answers { OnlyFails (result_err result) }
    {
        let _ = disks;
        let row = next_row(self.alloc, &self.rows, table, range, after)?;
        Ok(row)
    }

    /// The changes of prepared entry `i` of the log, counted from 0, `None` exactly past the last one.
    pub fn logged<D: Disks>(&mut self, disks: &mut D, i: u64) -> Result<Option<Changes>, DiskErr>
        requires { StandsOnDevices (D.view disks.old) self.old }
        ensures changes { (p : ℕ) (v : PartView) (applied : List Id) → IsPartition (D.view disks.old) self.old p v applied → IsTrue (D.view disks.old).told
            → IfOk result (λ found. found ≡ option_map changes_in (slice_get v.log.prepared i)) }
        ensures stands { (p : ℕ) (v : PartView) (applied : List Id) → IsPartition (D.view disks.old) self.old p v applied
            → UnlessDown (result_err result) (IsPartition (D.view disks.new) self.new p v applied) }
        ensures kept { KeepsAll (D.view disks.old) (D.view disks.new) (result_err result) }
        ensures cause { HasCause (D.view disks.old) (D.view disks.new) (result_err result) }
        ensures answers { OnlyFails (result_err result) }
    {
        if self.log.count() - 1 <= i {
            return Ok(None);
        }
        let prepared = unit_told(self.alloc, disks, &mut self.log, self.nulls, i + 1)?;
        Ok(Some(Items::from_vec(prepared.changes)))
    }
}
