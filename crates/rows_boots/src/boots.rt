//! What an opening finds behind a boot that a stop has broken off.

ghost use Rattle.salt_place.specs.Placement.{GivesPlaceOf, TakesEachKey};
ghost use Rattle.std.specs.Prelude.{IsTrue, ◌≡◌, ◌≤◌};

use salt_disk::Disks;
use salt_place::{PlaceKind, Placement};
use salt_storage::{OpenErr, Storage};
use salt_values::Key;

/// How many boots are kept, where a stop at this write or sync was armed before the second boot. If it came, that is what an
/// opening finds behind a restart.
pub fn boots_kept<S: Storage, D: Disks, F: Fn(PlaceKind, &Key, u32) -> u32>(
    storage: &mut S,
    disks: &mut D,
    place: &Placement<F>,
    calls: u64,
    pick: u8,
) -> Result<u64, OpenErr>
    requires callable { TakesEachKey (F.pre place.now.place) }
    requires answers { GivesPlaceOf (F.post place.now.place) }
    requires settled { S.settled (D.view disks.old) storage.old }
    requires unopened { S.unopened storage.old }
    requires stops { IsTrue (D.view disks.old).can_stop }
    requires pick { pick ≤ 4 }
{
    let found = storage.open(disks, place)?;
    if found.boot > 0 || found.decisions > 0 {
        return Ok(found.boot);
    }
    storage.boot(disks)?;
    storage.arm(disks, calls, pick)?;
    match storage.boot(disks) {
        Ok(boot) => Ok(boot),
        Err(_) => {
            storage.restart(disks);
            Ok(storage.reopen(disks, place)?.boot)
        }
    }
}
