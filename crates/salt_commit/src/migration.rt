//! A store goes on in the newest formats.

ghost use Rattle.salt_commit.specs.Migrations.{HasMigrated};
ghost use Rattle.salt_commit.specs.Stores.{StandsOnDevices};
ghost use Rattle.std.specs.Result.{result_err};

use crate::error::StoreErr;
use crate::store::Store;
use salt_disk::Disks;
use salt_room::migrate;

impl Store {
    /// Takes a store of an older format into the newest, as an opening does before its boot: each partition whose log is of format 1 or has
    /// a unit is checkpointed, and then the coordinator's log gets a snapshot. A store in the newest format is left as it is. Whatever the
    /// call answers, each image of the devices stands for what stood before: for the same numbers, definitions, rows and continuations.
    pub fn migrate<D: Disks>(&mut self, disks: &mut D) -> Result<(), StoreErr>
        requires { StandsOnDevices (D.view disks.old) self.old }
        ensures { HasMigrated (D.view disks.old) (D.view disks.new) self.old self.new (result_err result) }
    {
        migrate(self.alloc, disks, &mut self.decisions, &mut self.parts)?;
        Ok(())
    }
}
