//! The rows of a range are loaded.

ghost use Rattle.salt_bytes.specs.Generations.{WhichLog};
ghost use Rattle.salt_commit.specs.Loads.{AreRowsOf, IsPartOf};
ghost use Rattle.salt_commit.specs.Messages.{messages_of};
ghost use Rattle.salt_commit.specs.Stores.{IsStore, StandsOnDevices, numbers_in, reading, shape_of_store};
ghost use Rattle.salt_stands.specs.Fitting.{tables_defined};
ghost use Rattle.salt_directory.specs.Loading.{HasLoaded};
ghost use Rattle.salt_eval.specs.Scans.{IsKeyed};
ghost use Rattle.salt_loaded.specs.Rows.{are_apart, tables_in};
ghost use Rattle.salt_disk.specs.Disks.{HasCause, KeepsAll, OnlyFails, UnlessDown};
ghost use Rattle.salt_model.specs.Kept.{Definition};
ghost use Rattle.salt_stands.specs.Commits.{each_tables, found_of};
ghost use Rattle.salt_stands.specs.Coordinator.{Coordinator};
ghost use Rattle.salt_stands.specs.Pieces.{PartView};
ghost use Rattle.salt_place.specs.Placement.{GivesPlaceOf, TakesEachKey};
ghost use Rattle.std.specs.Prelude.{IfOk, IsTrue, OnOk, false, length, ℕ, ◌<◌, ◌≡◌};
ghost use Rattle.std.specs.Result.{result_err};

use crate::error::StoreErr;
use crate::store::Store;
use salt_disk::{DiskErr, Disks};
use salt_gatelog::rejected;
use salt_loaded::{Loaded, Loading};
use salt_model::Reach;
use salt_parts::load_all;
use salt_place::{PlaceKind, Placement, one_part};
use salt_ranges::KeyRange;
use salt_schema::Schema;
use salt_values::Key;
use std::alloc::Global;

/// The rows in order of their keys. That two have one key, which only disks can give that don't tell their bytes, is answered as a failure
/// of the disks.
fn sorted<D: Disks>(disks: &mut D, loading: Loading) -> Result<Loaded, DiskErr>
    requires { are_apart loading.rows ≡ false → (D.view disks.old).told ≡ false }
    ensures rows { IfOk result (λ rows. rows ≡ tables_in loading.table loading.rows) }
    ensures kept { KeepsAll (D.view disks.old) (D.view disks.new) (result_err result) }
    ensures cause { HasCause (D.view disks.old) (D.view disks.new) (result_err result) }
    ensures answers { OnlyFails (result_err result) }
{
    match loading.sorted() {
        Some(rows) => Ok(rows),
        None => Err(rejected(disks)),
    }
}

/// Whether each row meets its table. One that does not is none that was written: the disks have failed. Where they tell their bytes there is none.
fn judge_all<D: Disks>(
    alloc: Global,
    disks: &mut D,
    schema: &Schema,
    rows: &Loaded,
) -> Result<(), DiskErr>
    requires told { IsTrue (D.view disks.old).told → AreRowsOf schema.now rows.now }
    requires keyed { IsKeyed rows.now }
    ensures typed { OnOk result (AreRowsOf schema.now rows.now) }
    ensures kept { KeepsAll (D.view disks.old) (D.view disks.new) (result_err result) }
    ensures cause { HasCause (D.view disks.old) (D.view disks.new) (result_err result) }
    ensures answers { OnlyFails (result_err result) }
{
    if disks.is_told() {
        return Ok(());
    }
    if rows.meet(alloc, schema)? {
        Ok(())
    } else {
        Err(rejected(disks))
    }
}

impl Store {
    /// The rows of a range in one partition are loaded.
    fn load_part<D: Disks>(
        &mut self,
        disks: &mut D,
        number: u32,
        range: &KeyRange,
        out: &mut Loading,
    ) -> Result<(), StoreErr>
        requires stands { StandsOnDevices (D.view disks.old) self.old }
        requires below { number < (shape_of_store self.old).parts }
        ensures rows { (which : WhichLog) (c : Coordinator Definition) (v : ℕ → PartView) → IsStore reading (D.view disks.old) self.old which c v → IsTrue (D.view disks.old).told
            → OnOk result (HasLoaded range.now (each_tables c v number) out.old out.new) }
        ensures stands { (which : WhichLog) (c : Coordinator Definition) (v : ℕ → PartView) → IsStore reading (D.view disks.old) self.old which c v
            → UnlessDown (result_err result) (IsStore reading (D.view disks.new) self.new which c v) }
        ensures numbers { numbers_in self.new ≡ numbers_in self.old }
        ensures messages { messages_of self.new ≡ messages_of self.old }
        ensures kept { KeepsAll (D.view disks.old) (D.view disks.new) (result_err result) }
        ensures cause { HasCause (D.view disks.old) (D.view disks.new) (result_err result) }
        ensures answers { OnlyFails (result_err result) }
    {
        let part = &mut self.parts[number as usize];
        part.load(disks, range, out)
    }

    /// The rows of a range in all partitions are loaded.
    fn load_parts<D: Disks>(
        &mut self,
        disks: &mut D,
        range: &KeyRange,
        out: &mut Loading,
    ) -> Result<(), StoreErr>
        requires stands { StandsOnDevices (D.view disks.old) self.old }
        ensures rows { (which : WhichLog) (c : Coordinator Definition) (v : ℕ → PartView) → IsStore reading (D.view disks.old) self.old which c v → IsTrue (D.view disks.old).told
            → OnOk result (HasLoaded range.now (found_of c v).kept.tables out.old out.new) }
        ensures stands { (which : WhichLog) (c : Coordinator Definition) (v : ℕ → PartView) → IsStore reading (D.view disks.old) self.old which c v
            → UnlessDown (result_err result) (IsStore reading (D.view disks.new) self.new which c v) }
        ensures numbers { numbers_in self.new ≡ numbers_in self.old }
        ensures messages { messages_of self.new ≡ messages_of self.old }
        ensures kept { KeepsAll (D.view disks.old) (D.view disks.new) (result_err result) }
        ensures cause { HasCause (D.view disks.old) (D.view disks.new) (result_err result) }
        ensures answers { OnlyFails (result_err result) }
    {
        load_all(disks, &mut self.parts, range, out)
    }

    /// The rows of a range are loaded: one partition is asked where the range tells that its keys stand in one, and else each.
    fn load_range<D: Disks, F: Fn(PlaceKind, &Key, u32) -> u32>(
        &mut self,
        disks: &mut D,
        place: &Placement<F>,
        range: &KeyRange,
        out: &mut Loading,
    ) -> Result<(), StoreErr>
        requires callable { TakesEachKey (F.pre place.now.place) }
        requires answers { GivesPlaceOf (F.post place.now.place) }
        requires stands { StandsOnDevices (D.view disks.old) self.old }
        ensures rows { (which : WhichLog) (c : Coordinator Definition) (v : ℕ → PartView) → IsStore reading (D.view disks.old) self.old which c v → IsTrue (D.view disks.old).told
            → OnOk result (HasLoaded range.now (found_of c v).kept.tables out.old out.new) }
        ensures stands { (which : WhichLog) (c : Coordinator Definition) (v : ℕ → PartView) → IsStore reading (D.view disks.old) self.old which c v
            → UnlessDown (result_err result) (IsStore reading (D.view disks.new) self.new which c v) }
        ensures numbers { numbers_in self.new ≡ numbers_in self.old }
        ensures messages { messages_of self.new ≡ messages_of self.old }
        ensures kept { KeepsAll (D.view disks.old) (D.view disks.new) (result_err result) }
        ensures cause { HasCause (D.view disks.old) (D.view disks.new) (result_err result) }
        ensures answers { OnlyFails (result_err result) }
    {
        match one_part(place, self.decisions.shape(), range) {
            Some(number) => self.load_part(disks, number, range, out),
            None => self.load_parts(disks, range, out),
        }
    }

    /// The rows in a reach, each of which meets its table. Where memory runs out the store stands as before. A row that does not meet its table, which only disks can
    /// give that don't tell their bytes, is answered as a failure of the disks.
    pub fn load<D: Disks, F: Fn(PlaceKind, &Key, u32) -> u32>(
        &mut self,
        disks: &mut D,
        place: &Placement<F>,
        schema: &Schema,
        reach: &Reach,
    ) -> Result<Loaded, StoreErr>
        requires callable { TakesEachKey (F.pre place.now.place) }
        requires answers { GivesPlaceOf (F.post place.now.place) }
        requires stands { StandsOnDevices (D.view disks.old) self.old }
        requires table { reach.now.table < length schema.now }
        requires schema { (which : WhichLog) (c : Coordinator Definition) (v : ℕ → PartView) → IsStore reading (D.view disks.old) self.old which c v → IsTrue (D.view disks.old).told
            → schema.now ≡ tables_defined c.definitions }
        ensures rows { (which : WhichLog) (c : Coordinator Definition) (v : ℕ → PartView) → IsStore reading (D.view disks.old) self.old which c v → IsTrue (D.view disks.old).told
            → IfOk result (λ rows. IsPartOf reach.now rows (found_of c v).kept.tables) }
        ensures typed { IfOk result (λ rows. AreRowsOf schema.now rows) }
        ensures stands { (which : WhichLog) (c : Coordinator Definition) (v : ℕ → PartView) → IsStore reading (D.view disks.old) self.old which c v
            → UnlessDown (result_err result) (IsStore reading (D.view disks.new) self.new which c v) }
        ensures numbers { numbers_in self.new ≡ numbers_in self.old }
        ensures messages { messages_of self.new ≡ messages_of self.old }
        ensures kept { KeepsAll (D.view disks.old) (D.view disks.new) (result_err result) }
        ensures cause { HasCause (D.view disks.old) (D.view disks.new) (result_err result) }
        ensures answers { OnlyFails (result_err result) }
    {
        let mut loading = Loading::new(self.alloc, reach.table);
        self.load_range(disks, place, &reach.range, &mut loading)?;
        let rows = sorted(disks, loading)?;
        judge_all(self.alloc, disks, schema, &rows)?;
        Ok(rows)
    }
}
