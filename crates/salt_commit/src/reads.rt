//! What stands in a store is read.

ghost use Rattle.salt_bytes.specs.Generations.{WhichLog};
ghost use Rattle.salt_commit.specs.Stores.{IsStore, StandsOnDevices, reading, row_in};
ghost use Rattle.salt_disk.specs.Disks.{HasCause, KeepsAll, OnlyFails, UnlessDown};
ghost use Rattle.salt_model.specs.Kept.{Definition};
ghost use Rattle.salt_stands.specs.Commits.{found_of};
ghost use Rattle.salt_stands.specs.Coordinator.{Coordinator};
ghost use Rattle.salt_stands.specs.Pieces.{PartView};
ghost use Rattle.salt_place.specs.Placement.{GivesPlaceOf, TakesEachKey};
ghost use Rattle.std.specs.Prelude.{IfOk, IsTrue, ℕ, ◌≡◌};
ghost use Rattle.std.specs.Result.{result_err};

use crate::error::StoreErr;
use crate::shares::part_of;
use crate::store::Store;
use salt_disk::Disks;
use salt_place::{PlaceKind, Placement};
use salt_values::{Key, Row};

impl Store {
    /// The row of a key, `None` exactly where there is none. Where memory runs out the store stands as before.
    pub fn get<D: Disks, F: Fn(PlaceKind, &Key, u32) -> u32>(
        &mut self,
        disks: &mut D,
        place: &Placement<F>,
        table: u16,
        key: &Key,
    ) -> Result<Option<Row>, StoreErr>
        requires callable { TakesEachKey (F.pre place.now.place) }
        requires answers { GivesPlaceOf (F.post place.now.place) }
        requires stands { StandsOnDevices (D.view disks.old) self.old }
        ensures row { (which : WhichLog) (c : Coordinator Definition) (v : ℕ → PartView) → IsStore reading (D.view disks.old) self.old which c v → IsTrue (D.view disks.old).told
            → IfOk result (λ row. row ≡ row_in (found_of c v) table key.now) }
        ensures stands { (which : WhichLog) (c : Coordinator Definition) (v : ℕ → PartView) → IsStore reading (D.view disks.old) self.old which c v
            → UnlessDown (result_err result) (IsStore reading (D.view disks.new) self.new which c v) }
        ensures kept { KeepsAll (D.view disks.old) (D.view disks.new) (result_err result) }
        ensures cause { HasCause (D.view disks.old) (D.view disks.new) (result_err result) }
        ensures answers { OnlyFails (result_err result) }
    {
        let number = part_of(place, self.decisions.shape(), key);
        let part = &mut self.parts[number as usize];
        let row = part.get(disks, table, key)?;
        Ok(row)
    }
}
