//! The turns of a unit's commit over messages up to its decision: nodes are asked for their votes, and their partitions prepare the
//! unit's shares.

ghost use Rattle.salt_bytes.specs.Generations.{WhichLog};
ghost use Rattle.salt_commit.specs.Messages.{nodes_of};
ghost use Rattle.salt_commit.specs.Voting.{DidNext, HasPreparedAt, HaveVoted, MayDoNext, MayPrepareAt, MayVote, MayVoteAs};
ghost use Rattle.salt_paged.specs.Partitions.{ArePartitions};
ghost use Rattle.salt_parts.specs.Openings.{decided_in};
ghost use Rattle.salt_shares.specs.Prepares.{with_shares};
ghost use Rattle.salt_stands.specs.CoordinatorLog.{CoordinatorLog};
ghost use Rattle.salt_stands.specs.Pieces.{PartView};
ghost use Rattle.salt_turns.specs.Amid.{IsOnTheWay, IsUnknown, Rests, first_of};
ghost use Rattle.salt_turns.specs.declared.coming.Next.TheVariants.{Restarts};
ghost use Rattle.std.specs.Prelude.{OnOk, length, ℕ, ◌≡◌, ◌≤◌};
ghost use Rattle.std.specs.Result.{result_err};

use crate::again::reopen_at;
use crate::nodes::nodes_of;
use salt_disk::{DiskErr, Disks};
use salt_net::{Messages, NodeStatus};
use salt_paged::Partition;
use salt_shares::prepare_share;
use salt_turns::{Next, begin, next_vote, pass};
use salt_values::{Changes, Id, next_number};
use std::alloc::{AllocError, Global};

/// Prepares a unit's share in a partition of a list.
fn prepare_at<D: Disks>(
    disks: &mut D,
    parts: &mut Vec<Partition>,
    number: usize,
    unit: Id,
    shares: &[Changes],
) -> Result<(), DiskErr>
    requires size { length shares.now ≡ length parts.old.items }
    requires may { MayPrepareAt (D.view disks.old) parts.old.items unit shares.now number }
    ensures { HasPreparedAt (D.view disks.old) (D.view disks.new) parts.old.items parts.new.items unit shares.now number (result_err result) }
{
    let share = &shares[number];
    let part = &mut parts[number];
    prepare_share(disks, part, unit, share)
}

/// Does what the event that comes next asks of a partition, before the event is done.
fn do_next<D: Disks>(
    alloc: Global,
    disks: &mut D,
    parts: &mut Vec<Partition>,
    next: Next,
    unit: Id,
    shares: &[Changes],
) -> Result<(), DiskErr>
    requires size { length shares.now ≡ length parts.old.items }
    requires may { MayDoNext next (D.view disks.old) parts.old.items unit shares.now }
    ensures { DidNext next (D.view disks.old) (D.view disks.new) parts.old.items parts.new.items unit shares.now (result_err result) }
{
    match next {
        Next::Restarts(node) => reopen_at(alloc, disks, parts, node as usize - 1),
        Next::Prepares(node) => prepare_at(disks, parts, node as usize - 1, unit, shares),
        Next::Nothing => Ok(()),
        Next::Decides => Ok(()),
        Next::Ends(_) => Ok(()),
    }
}

/// Keeps in mind a node that starts again while it is in doubt.
fn mind_doubt(
    messages: &Messages,
    unit: Id,
    next: Next,
    doubted: &mut Vec<u8>,
) -> Result<(), AllocError>
    requires { (node : ℕ) → next ≡ Restarts node → node ≤ 8 }
{
    if let Next::Restarts(node) = next {
        if messages.net().status(unit, node) == NodeStatus::Prepared {
            doubted.push(node)?;
        }
    }
    Ok(())
}

/// Starts a unit, and goes on by turns until the coordinator decides next, or has no node to ask. Then each share is prepared; whatever
/// is answered, each image of each partition's log has the entries from before, with the share's or without it, and pages are written to
/// no side that a header names. What nodes were restarted in doubt is kept in mind.
pub fn vote_all<D: Disks>(
    alloc: Global,
    disks: &mut D,
    parts: &mut Vec<Partition>,
    messages: &mut Messages,
    unit: Id,
    shares: &[Changes],
    doubted: &mut Vec<u8>,
) -> Result<(), DiskErr>
    requires size { length shares.now ≡ length parts.old.items }
    requires few { length shares.now ≤ 8 }
    requires may { MayVote (D.view disks.old) parts.old.items unit shares.now }
    requires rests { Rests messages.old }
    requires new { IsUnknown unit messages.old }
    ensures ok { (which : WhichLog) (log : CoordinatorLog) (v : ℕ → PartView) → MayVoteAs (D.view disks.old) parts.old.items unit shares.now which log v
        → OnOk result (ArePartitions (D.view disks.new) parts.new.items (with_shares unit shares.now v) (decided_in log)) }
    ensures voted { HaveVoted (D.view disks.old) (D.view disks.new) parts.old.items parts.new.items unit shares.now (result_err result) }
    ensures way { OnOk result (IsOnTheWay unit (nodes_of shares.now) (first_of unit (nodes_of shares.now) messages.old) messages.new) }
{
    let nodes = nodes_of(shares);
    begin(messages, unit, nodes)?;
    let mut steps: u64 = 0;
    'vote: while let Some(next) = next_vote(messages, unit) {
        mind_doubt(messages, unit, next, doubted)?;
        do_next(alloc, disks, parts, next, unit, shares)?;
        pass(messages, unit)?;
        steps = next_number(steps)?;
    }
    Ok(())
}
