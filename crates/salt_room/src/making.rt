//! Room is made in a store's logs where they have too much behind their headers.

ghost use Rattle.salt_decisions.specs.Decisions.{count_in, format_of};
ghost use Rattle.salt_decisions.specs.declared.header_payload.TheConstants.{FORMAT};
ghost use Rattle.salt_room.specs.Making.{HasRoom, MakesRoom, most_entries};
ghost use Rattle.salt_room.specs.Renewals.{StandAsStore};
ghost use Rattle.salt_room.specs.Rooms.{HaveRoom};
ghost use Rattle.salt_values.specs.declared.change.Change.{Change};
ghost use Rattle.std.specs.Prelude.{List, OnOk, [], false, length, true, ◌<◌, ◌≡◌};
ghost use Rattle.std.specs.Result.{result_err};

use crate::checkpoints::checkpoint_full;
use crate::renewal::renew;
use salt_decisions::{Decisions, FORMAT};
use salt_disk::{DiskErr, Disks};
use salt_paged::Partition;
use salt_values::Changes;
use std::alloc::Global;

/// How many entries the coordinator's log may have behind its header before it is begun anew.
pub const MOST_ENTRIES: u64 = 1024;

/// Whether the coordinator's log has no room for one entry more, where its format is the newest.
fn is_full(decisions: &Decisions) -> bool
    ensures room { result ≡ false → HasRoom decisions.now }
    ensures newest { result ≡ true → format_of decisions.now ≡ FORMAT }
    ensures many { result ≡ true → most_entries < count_in decisions.now }
{
    if decisions.format() != FORMAT {
        return false;
    }
    MOST_ENTRIES < decisions.entries()
}

/// Begins new generations of all logs of a store where the coordinator's has 1,024 entries or more behind its header, so that there is
/// room for one more. A log of an older format is left as it is: it is begun anew at an opening. Whatever the call answers, each image
/// of the devices stands for what stood before. After an error the store is opened again before it is used.
pub fn renew_full<D: Disks>(
    alloc: Global,
    disks: &mut D,
    decisions: &mut Decisions,
    parts: &mut Vec<Partition>,
) -> Result<(), DiskErr>
    requires { StandAsStore (D.view disks.old) decisions.old parts.old.items }
    ensures makes { MakesRoom (D.view disks.old) (D.view disks.new) decisions.old decisions.new parts.old.items parts.new.items [] (result_err result) }
    ensures room { (shares : List (List Change)) → HaveRoom (length parts.old.items) parts.old.items shares → OnOk result (HaveRoom (length parts.new.items) parts.new.items shares) }
{
    if !is_full(decisions) {
        return Ok(());
    }
    renew(alloc, disks, decisions, parts)
}

/// Makes room for a unit with these shares: each partition that has one, and 256 units or more in its log, is checkpointed, and then all
/// logs begin new generations where the coordinator's has no room. Else as `renew_full`.
pub fn make_room<D: Disks>(
    alloc: Global,
    disks: &mut D,
    decisions: &mut Decisions,
    parts: &mut Vec<Partition>,
    shares: &[Changes],
) -> Result<(), DiskErr>
    requires stand { StandAsStore (D.view disks.old) decisions.old parts.old.items }
    requires size { length shares.now ≡ length parts.old.items }
    ensures makes { MakesRoom (D.view disks.old) (D.view disks.new) decisions.old decisions.new parts.old.items parts.new.items shares.now (result_err result) }
    ensures room { OnOk result (HaveRoom (length parts.new.items) parts.new.items shares.now) }
{
    checkpoint_full(disks, parts, shares)?;
    renew_full(alloc, disks, decisions, parts)
}
