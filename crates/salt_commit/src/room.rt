//! Room in a store's logs.

ghost use Rattle.salt_commit.specs.Rooms.{HasMadeRoom};
ghost use Rattle.salt_commit.specs.Stores.{StandsOnDevices};
ghost use Rattle.salt_room.specs.Rooms.{HaveRoom};
ghost use Rattle.std.specs.Prelude.{OnOk, [], length, ◌≡◌};
ghost use Rattle.std.specs.Result.{result_err};

use crate::error::StoreErr;
use crate::store::Store;
use salt_disk::Disks;
use salt_room::{make_room, renew_full};
use salt_values::Changes;

impl Store {
    /// Begins new generations of all logs where the coordinator's has no room for one entry more. Whatever the call answers, each
    /// image of the devices stands for what stood before.
    pub(crate) fn renew_full<D: Disks>(&mut self, disks: &mut D) -> Result<(), StoreErr>
        requires { StandsOnDevices (D.view disks.old) self.old }
        ensures { HasMadeRoom (D.view disks.old) (D.view disks.new) self.old self.new [] (result_err result) }
    {
        renew_full(self.alloc, disks, &mut self.decisions, &mut self.parts)?;
        Ok(())
    }

    /// Makes room for a unit with these shares: in each partition that has one, and then as `renew_full`.
    pub(crate) fn make_room<D: Disks>(
        &mut self,
        disks: &mut D,
        shares: &[Changes],
    ) -> Result<(), StoreErr>
        requires stands { StandsOnDevices (D.view disks.old) self.old }
        requires size { length shares.now ≡ length self.old.parts }
        ensures makes { HasMadeRoom (D.view disks.old) (D.view disks.new) self.old self.new shares.now (result_err result) }
        ensures room { OnOk result (HaveRoom (length self.new.parts) self.new.parts shares.now) }
    {
        make_room(
            self.alloc,
            disks,
            &mut self.decisions,
            &mut self.parts,
            shares,
        )?;
        Ok(())
    }
}
