//! A partition of a store is opened again, as a node does that restarts.

ghost use Rattle.salt_bytes.specs.Generations.{WhichLog};
ghost use Rattle.salt_checkpoint.specs.Sides.{KeepsNamed};
ghost use Rattle.salt_commit.specs.Again.{ReadsAs, StandsUnder};
ghost use Rattle.salt_commit.specs.Voting.{HasReopenedAt, MayReopenAt};
ghost use Rattle.salt_decisions.specs.Kept.{IsKept};
ghost use Rattle.salt_disk.specs.Disks.{FullWhere, HasCause, KeepsAll, KeepsOthers, OnlyFails};
ghost use Rattle.salt_paged.specs.Partitions.{IsPartition, log_gate, pages_of};
ghost use Rattle.salt_paged.specs.Reopening.{AreDecided};
ghost use Rattle.salt_parts.specs.Openings.{decided_in};
ghost use Rattle.salt_stands.specs.CoordinatorLog.{CoordinatorLog};
ghost use Rattle.salt_stands.specs.Pieces.{PartView};
ghost use Rattle.salt_values.specs.declared.id.Id.{Id};
ghost use Rattle.std.specs.Prelude.{IfOk, IsTrue, List, OnErr, OnOk, length, ℕ, ◌<◌, ◌≡◌};
ghost use Rattle.std.specs.Result.{result_err};

use crate::named::units_in_part;
use salt_decisions::{Kept, peek};
use salt_disk::{DiskErr, Disks};
use salt_gatelog::{PairErr, rejected};
use salt_paged::Partition;
use salt_values::Ids;
use std::alloc::Global;

/// What the coordinator's log keeps. Disks that give none have failed.
fn kept_now<D: Disks>(alloc: Global, disks: &mut D) -> Result<Kept, DiskErr>
    requires { (which : WhichLog) × (log : CoordinatorLog) × ReadsAs (D.view disks.old) which log }
    ensures keeps { (which : WhichLog) (log : CoordinatorLog) → ReadsAs (D.view disks.old) which log → IsTrue (D.view disks.old).told → IfOk result (λ kept. IsKept kept log) }
    ensures masks { IfOk result (λ kept. length kept.masks ≡ length kept.decided) }
    ensures kept { KeepsAll (D.view disks.old) (D.view disks.new) (result_err result) }
    ensures cause { HasCause (D.view disks.old) (D.view disks.new) (result_err result) }
    ensures answers { OnlyFails (result_err result) }
{
    match peek(alloc, disks) {
        Ok(Some(peeked)) => Ok(peeked.1),
        Ok(None) => Err(rejected(disks)),
        Err(PairErr::NotSalt(_)) => Err(rejected(disks)),
        Err(PairErr::Disk(e)) => Err(e),
    }
}

/// The number of the last boot, and the units that are decided with a partition's bit, as the coordinator's log says now.
fn said_now<D: Disks>(alloc: Global, disks: &mut D, part: u8) -> Result<(u64, Ids), DiskErr>
    requires part { part < 8 }
    requires reads { (which : WhichLog) × (log : CoordinatorLog) × ReadsAs (D.view disks.old) which log }
    ensures log { (which : WhichLog) (log : CoordinatorLog) → ReadsAs (D.view disks.old) which log → IsTrue (D.view disks.old).told
        → IfOk result (λ said. (said.0 ≡ log.told.boot) × (said.1 ≡ decided_in log part)) }
    ensures kept { KeepsAll (D.view disks.old) (D.view disks.new) (result_err result) }
    ensures cause { HasCause (D.view disks.old) (D.view disks.new) (result_err result) }
    ensures answers { OnlyFails (result_err result) }
{
    let kept = kept_now(alloc, disks)?;
    let units = units_in_part(alloc, kept.decided.as_slice(), kept.masks.as_slice(), part)?;
    Ok((kept.boot, units))
}

/// Opens a partition again while it stands: the coordinator's log is read anew, and the partition opened under it, with the units
/// applied that are decided there. Pages may be written, to sides that its header does not name. Disks that give what was not written
/// have failed. After an error the partition is as it was.
fn reopen_part<D: Disks>(alloc: Global, disks: &mut D, part: &mut Partition) -> Result<(), DiskErr>
    requires { StandsUnder (D.view disks.old) part.old }
    ensures ok { (which : WhichLog) (log : CoordinatorLog) (p : ℕ) (v : PartView) (applied : List Id) → ReadsAs (D.view disks.old) which log → IsPartition (D.view disks.old) part.old p v applied
        → AreDecided applied (decided_in log p) → OnOk result (IsPartition (D.view disks.new) part.new p v (decided_in log p)) }
    ensures gate { log_gate part.new ≡ log_gate part.old }
    ensures err { OnErr result (part.new ≡ part.old) }
    ensures images { (p : ℕ) (v : PartView) (applied : List Id) → IsPartition (D.view disks.old) part.old p v applied → IsTrue (D.view disks.old).told
        → KeepsNamed v.log.header.sides (D.view disks.old) (D.view disks.new) (pages_of part.old) }
    ensures others { KeepsOthers (pages_of part.old) (D.view disks.old) (D.view disks.new) (result_err result) }
    ensures cause { HasCause (D.view disks.old) (D.view disks.new) (result_err result) }
    ensures full { FullWhere (λ dev. dev ≡ pages_of part.old) (result_err result) }
{
    let said = said_now(alloc, disks, part.number())?;
    part.reopen(disks, said.0, &said.1)
}

/// Opens a partition of a list again, as the coordinator's log says.
pub fn reopen_at<D: Disks>(
    alloc: Global,
    disks: &mut D,
    parts: &mut Vec<Partition>,
    number: usize,
) -> Result<(), DiskErr>
    requires { MayReopenAt (D.view disks.old) parts.old.items number }
    ensures { HasReopenedAt (D.view disks.old) (D.view disks.new) parts.old.items parts.new.items number (result_err result) }
{
    let part = &mut parts[number];
    reopen_part(alloc, disks, part)
}
