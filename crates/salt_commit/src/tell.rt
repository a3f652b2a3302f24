//! The turns of a unit's commit over messages behind its decision: nodes are told, and partitions that have forgotten the unit are
//! opened again.

ghost use Rattle.salt_bytes.specs.Generations.{WhichLog};
ghost use Rattle.salt_commit.specs.Messages.{nodes_of};
ghost use Rattle.salt_commit.specs.Telling.{DidOpen, HasOpenedAt, HaveTold, IsBehind, MayOpen, MayTell};
ghost use Rattle.salt_commit.specs.Voting.{MayReopenAt};
ghost use Rattle.salt_net.specs.Turns.{Turning};
ghost use Rattle.salt_stands.specs.CoordinatorLog.{CoordinatorLog};
ghost use Rattle.salt_stands.specs.Pieces.{PartView};
ghost use Rattle.salt_turns.specs.Amid.{HasEndedTurns, IsOnTheWay};
ghost use Rattle.salt_turns.specs.declared.coming.Next.TheVariants.{Ends, Restarts};
ghost use Rattle.salt_values.specs.declared.id.Id.{Id};
ghost use Rattle.std.specs.Prelude.{IfSome, List, OnOk, length, ℕ, ◌≡◌, ◌⊎◌};
ghost use Rattle.std.specs.Result.{result_err};

use crate::again::reopen_at;
use salt_disk::{DiskErr, Disks};
use salt_net::Messages;
use salt_paged::Partition;
use salt_turns::{Next, go_on, has_next, next_of};
use salt_values::{Changes, Id, next_number};
use sqlite_items::Items;
use std::alloc::Global;

/// Which node's partition is opened again at the event that comes next: one that starts again, and one that ends and was restarted
/// in doubt.
fn to_open(next: Next, doubted: &[u8]) -> Option<u8>
    ensures { IfSome result (λ node. (next ≡ Restarts node) ⊎ (next ≡ Ends node)) }
{
    match next {
        Next::Restarts(node) => Some(node),
        Next::Ends(node) => {
            if doubted.iter().any(|other| *other == node) {
                return Some(node);
            }
            None
        }
        _ => None,
    }
}

/// Opens a partition of a list again, in which the unit is then applied: nothing of its share is left.
fn open_at<D: Disks>(
    alloc: Global,
    disks: &mut D,
    parts: &mut Vec<Partition>,
    shares: &mut Vec<Changes>,
    number: usize,
) -> Result<(), DiskErr>
    requires size { length shares.old.items ≡ length parts.old.items }
    requires may { MayReopenAt (D.view disks.old) parts.old.items number }
    ensures opened { HasOpenedAt (D.view disks.old) (D.view disks.new) parts.old.items parts.new.items shares.old.items shares.new.items number (result_err result) }
    ensures left { length shares.new.items ≡ length shares.old.items }
{
    reopen_at(alloc, disks, parts, number)?;
    let none = Items::new(alloc);
    shares[number] = none;
    Ok(())
}

/// Opens the partition of a node again, if one is given.
fn open_next<D: Disks>(
    alloc: Global,
    disks: &mut D,
    parts: &mut Vec<Partition>,
    shares: &mut Vec<Changes>,
    node: Option<u8>,
) -> Result<(), DiskErr>
    requires size { length shares.old.items ≡ length parts.old.items }
    requires may { MayOpen node (D.view disks.old) parts.old.items }
    ensures did { DidOpen node (D.view disks.old) (D.view disks.new) parts.old.items parts.new.items shares.old.items shares.new.items (result_err result) }
    ensures left { length shares.new.items ≡ length shares.old.items }
{
    match node {
        Some(node) => open_at(alloc, disks, parts, shares, node as usize - 1),
        None => Ok(()),
    }
}

/// Goes on by turns until they end, and opens partitions again meanwhile: that of a node that starts again behind the decision, and of
/// one that was restarted in doubt and is told. In these the unit is applied, and nothing is left of their shares. Pages may be written,
/// to sides that the headers do not name.
pub fn tell_all<D: Disks>(
    alloc: Global,
    disks: &mut D,
    parts: &mut Vec<Partition>,
    messages: &mut Messages,
    unit: Id,
    shares: &mut Vec<Changes>,
    doubted: &[u8],
) -> Result<(), DiskErr>
    requires size { length shares.old.items ≡ length parts.old.items }
    requires may { MayTell (D.view disks.old) parts.old.items unit shares.old.items }
    requires way { (first : Turning) × IsOnTheWay unit (nodes_of shares.old.items) first messages.old }
    ensures behind { OnOk result ((which : WhichLog) (log : CoordinatorLog) (v : ℕ → PartView) (applied : ℕ → List Id) → IsBehind (D.view disks.old) parts.old.items unit shares.old.items which log v applied
        → (now : ℕ → List Id) × IsBehind (D.view disks.new) parts.new.items unit shares.new.items which log v now) }
    ensures told { HaveTold (D.view disks.old) (D.view disks.new) parts.old.items parts.new.items unit shares.old.items (result_err result) }
    ensures left { length shares.new.items ≡ length shares.old.items }
    ensures way { (first : Turning) → IsOnTheWay unit (nodes_of shares.old.items) first messages.old → OnOk result (IsOnTheWay unit (nodes_of shares.old.items) first messages.new) }
    ensures ended { OnOk result (HasEndedTurns unit messages.new) }
{
    let mut steps: u64 = 0;
    'tell: while has_next(messages, unit) {
        let node = to_open(next_of(messages), doubted);
        open_next(alloc, disks, parts, shares, node)?;
        go_on(messages)?;
        steps = next_number(steps)?;
    }
    Ok(())
}
