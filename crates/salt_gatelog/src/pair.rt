//! A pair of logs: which of the two counts, and why none is opened.
ghost use Rattle.std.specs.Prelude.{◌≡◌};
ghost use Rattle.salt_bytes.specs.Generations.{follows, next_generation};
ghost use Rattle.salt_disk.specs.declared.disks.DiskErr.TheVariants.{Memory};
ghost use Rattle.salt_gatelog.specs.declared.pair.PairErr.TheVariants.{Disk};

use salt_disk::DiskErr;
use std::alloc::AllocError;

/// Why nothing is opened of a pair of logs.
#[derive(Clone, Copy, Debug, PartialEq, Eq)]
pub enum PairErr {
    /// A fault counts against the device of this number: what stands there was not written here.
    NotSalt(u32),
    /// A device call has not done what it was asked to, or memory ran out.
    Disk(DiskErr),
}

impl From<DiskErr> for PairErr {
    ghost from_gives = { λ e r. r ≡ Disk e };

    fn from(e: DiskErr) -> Self {
        PairErr::Disk(e)
    }
}

impl From<AllocError> for PairErr {
    ghost from_gives = { λ _ r. r ≡ Disk Memory };

    fn from(_: AllocError) -> Self {
        PairErr::Disk(DiskErr::Memory)
    }
}

/// The generation of the log that is begun next: after the last number comes 2.
pub fn next_generation(generation: u64) -> u64
    ensures { result ≡ next_generation generation }
{
    if generation == u64::MAX {
        2
    } else {
        generation + 1
    }
}

/// Whether one generation is the next after another, so that its log counts and the other's does not.
pub fn follows(before: u64, after: u64) -> bool
    ensures { result ≡ follows before after }
{
    after == next_generation(before)
}
