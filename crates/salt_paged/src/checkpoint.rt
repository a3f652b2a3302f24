//! A partition's log is begun anew.

ghost use Rattle.salt_bytes.specs.Generations.{WhichLog, next_generation};
ghost use Rattle.salt_bytes.specs.Partition.{spell_partition_header};
ghost use Rattle.salt_checkpoint.specs.Checkpoints.{StandsAlways};
ghost use Rattle.salt_codec.specs.Entries.{header_of};
ghost use Rattle.salt_disk.specs.Disks.{HasCause, KeepsBut};
ghost use Rattle.salt_model.specs.Kept.{Definition};
ghost use Rattle.salt_partition.specs.Choices.{which_of};
ghost use Rattle.salt_paged.specs.Checkpoints.{FullAtCheckpoint, IsCheckpointed, IsTouched, StandsBehind, StandsUnder};
ghost use Rattle.salt_paged.specs.Partitions.{IsPartition, StandsOnDevices, page_count, unit_count};
ghost use Rattle.salt_stands.specs.Coordinator.{Coordinator};
ghost use Rattle.salt_stands.specs.Pieces.{PartView, other_log};
ghost use Rattle.salt_stands.specs.Reading.{Reading};
ghost use Rattle.salt_values.specs.declared.id.Id.{Id};
ghost use Rattle.std.specs.Prelude.{IfOk, IsTrue, List, OnOk, length, ℕ, ◌<◌, ◌^◌, ◌≡◌};
ghost use Rattle.std.specs.Result.{result_err};

use crate::partition::Partition;
use salt_checkpoint::checkpoint;
use salt_codec::{Header, spell_header};
use salt_disk::{DiskErr, Disks};
use salt_gatelog::next_generation;
use salt_partition::{Side, log_of};
use salt_values::copies;
use sqlite_items::Items;
use std::alloc::{AllocError, Global};

/// The other log of a pair.
fn other_of(side: Side) -> Side
    ensures { which_of result ≡ other_log (which_of side) }
{
    match side {
        Side::A => Side::B,
        Side::B => Side::A,
    }
}

/// The header behind another one: the next generation, with pages on these sides.
fn next_header(alloc: Global, header: &Header, sides: &[u8]) -> Result<Header, AllocError>
    ensures made { IfOk result (λ made. header_of made ≡ record { format = 2; generation = next_generation header.now.generation; part = header.now.part; sides = sides.now }) }
    ensures small { IfOk result (λ made. made.generation < 2 ^ 64) }
{
    Ok(Header {
        format: 2,
        generation: next_generation(header.generation),
        part: header.part,
        sides: copies(alloc, sides)?,
    })
}

/// The spelling of a header. One that names 2^32 pages or more has no spelling, and no memory is found for it.
fn spelled(alloc: Global, header: &Header) -> Result<Vec<u8>, AllocError>
    ensures bytes { IfOk result (λ bytes. bytes.items ≡ spell_partition_header (header_of header.now)) }
    ensures few { OnOk result (length header.now.sides < 2 ^ 32) }
{
    if header.sides.as_slice().len() > u32::MAX as usize {
        return Err(AllocError);
    }
    spell_header(alloc, header)
}

impl Partition {
    /// Begins the other log of the pair with the next generation: pages are written to the sides that the header does not name, and
    /// made stable, and the next header names them. Each unit that is decided is applied: so the log's entries are needed no more.
    /// Whatever the call answers, each image of the devices stands for what stood before. `Full` comes only at a page's place, or at
    /// the other log's beginning. After an error the partition is opened again before it is used.
    pub fn checkpoint<D: Disks>(&mut self, disks: &mut D) -> Result<(), DiskErr>
        requires { StandsOnDevices (D.view disks.old) self.old }
        ensures ok { (p : ℕ) (v : PartView) (applied : List Id) → IsPartition (D.view disks.old) self.old p v applied
            → OnOk result (IsCheckpointed (D.view disks.old) (D.view disks.new) self.new p v applied) }
        ensures images { (r : Reading Definition) (which : WhichLog) (c : Coordinator Definition) (v : ℕ → PartView) → IsTrue (D.view disks.old).told → StandsUnder r (D.view disks.old) self.old which c v
            → StandsAlways r (D.view disks.new) c v }
        ensures ready { (r : Reading Definition) (which : WhichLog) (c : Coordinator Definition) (v : ℕ → PartView) → IsTrue (D.view disks.old).told → StandsUnder r (D.view disks.old) self.old which c v
            → OnOk result (StandsBehind r (D.view disks.new) self.new which c v) }
        ensures empty { OnOk result (unit_count self.new ≡ 0) }
        ensures pages { OnOk result (page_count self.new ≡ page_count self.old) }
        ensures others { KeepsBut (IsTouched self.old) (D.view disks.old) (D.view disks.new) (result_err result) }
        ensures cause { HasCause (D.view disks.old) (D.view disks.new) (result_err result) }
        ensures full { FullAtCheckpoint (D.view disks.new) self.old (result_err result) }
    {
        let sides = self.rows.checkpoint(disks)?;
        let header = next_header(self.alloc, &self.header, sides.as_slice())?;
        let bytes = spelled(self.alloc, &header)?;
        let side = other_of(self.side);
        let other = log_of(self.part, side);
        let log = checkpoint(self.alloc, disks, self.part, other, &[], &bytes)?;
        self.rows.named_as(sides);
        self.header = header;
        self.side = side;
        self.log = log;
        self.last = None;
        Ok(())
    }
}
