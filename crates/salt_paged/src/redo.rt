//! The decided units of a partition that was read are applied.

ghost use Rattle.salt_bytes.specs.Page.{page_place};
ghost use Rattle.salt_bytes.specs.Partition.{Prepared};
ghost use Rattle.salt_checkpoint.specs.Sides.{KeepsNamed};
ghost use Rattle.salt_codec.specs.Entries.{prepared_of};
ghost use Rattle.salt_directory.specs.Bytes.{IsWithin, bytes_of_changes, bytes_of_entries};
ghost use Rattle.salt_disk.specs.Disks.{FullOnly, HasCause, KeepsOthers};
ghost use Rattle.salt_disk.specs.declared.disks.DiskErr.TheVariants.{Full};
ghost use Rattle.salt_model.specs.Tables.{no_rows, with_changes};
ghost use Rattle.salt_paged.specs.Openings.{CanRedo, IsReadAs, WasRead, page_bound};
ghost use Rattle.salt_paged.specs.Partitions.{IsPartition, StandsUpTo, page_count, pages_of};
ghost use Rattle.salt_stands.specs.Partition.{changes_if, decided_changes};
ghost use Rattle.salt_stands.specs.Pieces.{PartView};
ghost use Rattle.salt_values.specs.Id.{has_id};
ghost use Rattle.salt_values.specs.declared.id.Id.{Id};
ghost use Rattle.std.specs.Prelude.{Err, IfOk, IsTrue, List, OnOk, [], ℕ, ◌+◌, ◌++◌, ◌∷◌, ◌≡◌};
ghost use Rattle.std.specs.Result.{result_err};

use crate::partition::Partition;
use salt_codec::PreparedUnit;
use salt_disk::{DiskErr, Disks};
use salt_partition::{is_in, set_of};
use salt_values::Ids;

/// A partition that was read, with the units of its log, none of which is applied yet.
#[derive(Drop)]
pub struct ReadPartition {
    pub(crate) partition: Partition,
    pub(crate) units: Vec<PreparedUnit>,
}

/// The changes of the next unit are made in the rows, where it is decided; else it is the last one, and waits.
fn redo_unit<D: Disks>(
    disks: &mut D,
    partition: &mut Partition,
    unit: PreparedUnit,
    is_decided: bool,
) -> Result<(), DiskErr>
    requires { CanRedo (D.view disks.old) partition.old (prepared_of unit) is_decided }
    ensures ok { (p : ℕ) (v : PartView) (applied : List Id) (done : List Prepared) → StandsUpTo (D.view disks.old) partition.old p v applied done → has_id unit.unit applied ≡ is_decided
        → OnOk result (StandsUpTo (D.view disks.new) partition.new p v applied (done ++ prepared_of unit ∷ [])) }
    ensures images { (p : ℕ) (v : PartView) (applied : List Id) (done : List Prepared) → StandsUpTo (D.view disks.old) partition.old p v applied done → KeepsNamed v.log.header.sides (D.view disks.old) (D.view disks.new) (pages_of partition.old) }
    ensures pages { (p : ℕ) (v : PartView) (applied : List Id) (done : List Prepared) → StandsUpTo (D.view disks.old) partition.old p v applied done → has_id unit.unit applied ≡ is_decided → IsTrue (D.view disks.old).told
        → IsWithin (page_count partition.old) (bytes_of_entries (with_changes (v.rows ++ decided_changes applied done) no_rows).list + bytes_of_changes (changes_if is_decided unit.changes.items)) (page_count partition.new) }
    ensures same { pages_of partition.new ≡ pages_of partition.old }
    ensures others { KeepsOthers (pages_of partition.old) (D.view disks.old) (D.view disks.new) (result_err result) }
    ensures cause { HasCause (D.view disks.old) (D.view disks.new) (result_err result) }
    ensures full { FullOnly (pages_of partition.old) ((D.view disks.old).limit (pages_of partition.old)) (page_place (page_count partition.new) 0) (result_err result) }
{
    if is_decided {
        partition.rows.apply(disks, unit.changes.as_slice())?;
        partition.last = None;
    } else {
        partition.last = Some(unit);
    }
    Ok(())
}

impl ReadPartition {
    /// Applies the units that are decided, in order of entries. Pages may be written, to sides that the header does not name, and none is
    /// made stable. Units that are not decided leave nothing in the rows. `Full` comes only where the pages that hold the rows, and as
    /// many as the decided changes can fill, pass the device's limit.
    pub fn redo<D: Disks>(self, disks: &mut D, decided: &Ids) -> Result<Partition, DiskErr>
        requires { WasRead (D.view disks.old) self }
        ensures ok { (p : ℕ) (v : PartView) → IsReadAs (D.view disks.old) self p v → IfOk result (λ x. IsPartition (D.view disks.new) x p v decided.now) }
        ensures images { (p : ℕ) (v : PartView) → IsReadAs (D.view disks.old) self p v → KeepsNamed v.log.header.sides (D.view disks.old) (D.view disks.new) (pages_of self.partition) }
        ensures others { KeepsOthers (pages_of self.partition) (D.view disks.old) (D.view disks.new) (result_err result) }
        ensures cause { HasCause (D.view disks.old) (D.view disks.new) (result_err result) }
        ensures full { (p : ℕ) (v : PartView) → IsReadAs (D.view disks.old) self p v → IsTrue (D.view disks.old).told
            → FullOnly (pages_of self.partition) ((D.view disks.old).limit (pages_of self.partition)) (page_place (page_bound decided.now v) 0) (result_err result) }
        ensures device { (n : ℕ) → result ≡ Err (Full n) → n ≡ pages_of self.partition }
    {
        let ReadPartition { partition, units } = self;
        let mut partition = partition;
        let set = set_of(partition.alloc, decided.as_slice())?;
        for unit in units {
            let is_decided = is_in(&set, unit.unit);
            redo_unit(disks, &mut partition, unit, is_decided)?;
        }
        Ok(partition)
    }
}
