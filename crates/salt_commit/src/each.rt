//! A unit's shares are prepared and ended, at once or by messages.

ghost use Rattle.salt_bytes.specs.Generations.{WhichLog};
ghost use Rattle.salt_commit.specs.Messages.{nodes_of};
ghost use Rattle.salt_commit.specs.Telling.{HaveCommitted, HaveStarted, HaveTold, IsBehind, MayTell};
ghost use Rattle.salt_commit.specs.Voting.{HaveVoted, MayVote, MayVoteAs};
ghost use Rattle.salt_net.specs.Paces.{Pace};
ghost use Rattle.salt_paged.specs.Partitions.{ArePartitions};
ghost use Rattle.salt_parts.specs.Openings.{decided_in};
ghost use Rattle.salt_shares.specs.Prepares.{with_shares};
ghost use Rattle.salt_stands.specs.CoordinatorLog.{CoordinatorLog};
ghost use Rattle.salt_stands.specs.Pieces.{PartView};
ghost use Rattle.salt_turns.specs.Amid.{IsUnknown, Rests};
ghost use Rattle.salt_values.specs.declared.id.Id.{Id};
ghost use Rattle.std.specs.Prelude.{IfSome, List, OnOk, Option, length, ℕ, ◌≡◌, ◌≤◌};
ghost use Rattle.std.specs.Result.{result_err};

use crate::tell::tell_all;
use crate::vote::vote_all;
use salt_disk::{DiskErr, Disks};
use salt_net::Messages;
use salt_paged::Partition;
use salt_shares::{apply_all, prepare_all};
use salt_values::{Changes, Id};
use std::alloc::Global;

/// Prepares a unit's shares, each in the partition of its place: in order, or where commits go over messages by turns, up to the
/// decision. Whatever it answers, each image of each partition's log has the entries from before, with the share's or without it, and
/// pages are written to no side that a header names.
pub fn prepare_each<D: Disks>(
    alloc: Global,
    disks: &mut D,
    parts: &mut Vec<Partition>,
    messages: &mut Option<Messages>,
    unit: Id,
    shares: &[Changes],
    doubted: &mut Vec<u8>,
) -> Result<(), DiskErr>
    requires size { length shares.now ≡ length parts.old.items }
    requires few { length shares.now ≤ 8 }
    requires may { MayVote (D.view disks.old) parts.old.items unit shares.now }
    requires rests { IfSome messages.old Rests }
    requires new { IfSome messages.old (IsUnknown unit) }
    ensures ok { (which : WhichLog) (log : CoordinatorLog) (v : ℕ → PartView) → MayVoteAs (D.view disks.old) parts.old.items unit shares.now which log v
        → OnOk result (ArePartitions (D.view disks.new) parts.new.items (with_shares unit shares.now v) (decided_in log)) }
    ensures voted { HaveVoted (D.view disks.old) (D.view disks.new) parts.old.items parts.new.items unit shares.now (result_err result) }
    ensures started { OnOk result (HaveStarted unit (nodes_of shares.now) messages.old messages.new) }
{
    match messages {
        Some(net) => vote_all(alloc, disks, parts, net, unit, shares, doubted),
        None => prepare_all(disks, parts, unit, shares),
    }
}

/// Goes on by turns to their end, where commits go over messages. In the partitions that are opened again meanwhile the unit is applied,
/// and nothing is left of their shares.
fn tell_each<D: Disks>(
    alloc: Global,
    disks: &mut D,
    parts: &mut Vec<Partition>,
    messages: &mut Option<Messages>,
    unit: Id,
    shares: &mut Vec<Changes>,
    doubted: &[u8],
) -> Result<(), DiskErr>
    requires size { length shares.old.items ≡ length parts.old.items }
    requires few { length shares.old.items ≤ 8 }
    requires may { MayTell (D.view disks.old) parts.old.items unit shares.old.items }
    requires started { (was : Option Pace) × HaveStarted unit (nodes_of shares.old.items) was messages.old }
    ensures behind { OnOk result ((which : WhichLog) (log : CoordinatorLog) (v : ℕ → PartView) (applied : ℕ → List Id) → IsBehind (D.view disks.old) parts.old.items unit shares.old.items which log v applied
        → (now : ℕ → List Id) × IsBehind (D.view disks.new) parts.new.items unit shares.new.items which log v now) }
    ensures told { HaveTold (D.view disks.old) (D.view disks.new) parts.old.items parts.new.items unit shares.old.items (result_err result) }
    ensures left { length shares.new.items ≡ length shares.old.items }
    ensures committed { (was : Option Pace) → IfSome was Rests → IfSome was (IsUnknown unit) → HaveStarted unit (nodes_of shares.old.items) was messages.old
        → OnOk result (HaveCommitted unit (nodes_of shares.old.items) was messages.new) }
{
    match messages {
        Some(net) => tell_all(alloc, disks, parts, net, unit, shares, doubted),
        None => Ok(()),
    }
}

/// Ends a unit's shares in the partitions that have prepared them, behind the decision: in order, or by turns to their end. Pages may
/// be written, to sides that the headers do not name. After an error the partitions are opened again before they are used.
pub fn end_each<D: Disks>(
    alloc: Global,
    disks: &mut D,
    parts: &mut Vec<Partition>,
    messages: &mut Option<Messages>,
    unit: Id,
    shares: &mut Vec<Changes>,
    doubted: &[u8],
) -> Result<(), DiskErr>
    requires size { length shares.old.items ≡ length parts.old.items }
    requires few { length shares.old.items ≤ 8 }
    requires may { MayTell (D.view disks.old) parts.old.items unit shares.old.items }
    requires started { (was : Option Pace) × HaveStarted unit (nodes_of shares.old.items) was messages.old }
    ensures ok { (which : WhichLog) (log : CoordinatorLog) (v : ℕ → PartView) (applied : ℕ → List Id) → IsBehind (D.view disks.old) parts.old.items unit shares.old.items which log v applied
        → OnOk result (ArePartitions (D.view disks.new) parts.new.items v (decided_in log)) }
    ensures told { HaveTold (D.view disks.old) (D.view disks.new) parts.old.items parts.new.items unit shares.old.items (result_err result) }
    ensures committed { (was : Option Pace) → IfSome was Rests → IfSome was (IsUnknown unit) → HaveStarted unit (nodes_of shares.old.items) was messages.old
        → OnOk result (HaveCommitted unit (nodes_of shares.old.items) was messages.new) }
{
    tell_each(alloc, disks, parts, messages, unit, shares, doubted)?;
    apply_all(disks, parts, unit, shares.as_slice())
}
