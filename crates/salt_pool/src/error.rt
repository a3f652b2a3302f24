//! Why no frame is given.

ghost use Rattle.salt_pool.specs.declared.error.PoolErr.TheVariants.{Disk};
ghost use Rattle.salt_disk.specs.declared.disks.DiskErr.TheVariants.{Memory};
ghost use Rattle.std.specs.Prelude.{◌≡◌};

use salt_disk::DiskErr;
use std::alloc::{AllocError, AllocFailed};

/// Why no frame is given.
#[derive(Clone, Copy, Debug, PartialEq, Eq)]
pub enum PoolErr {
    /// The page has no frame, and all frames are dirty.
    PoolFull,
    /// The page has no frame, and its bytes spell no page.
    NotPage,
    /// A device call has not done what it was asked to, or memory ran out.
    Disk(DiskErr),
}

impl From<DiskErr> for PoolErr {
    ghost from_gives = { λ e r. r ≡ Disk e };

    fn from(e: DiskErr) -> Self {
        PoolErr::Disk(e)
    }
}

impl From<AllocError> for PoolErr {
    ghost from_gives = { λ _ r. r ≡ Disk Memory };

    fn from(_: AllocError) -> Self {
        PoolErr::Disk(DiskErr::Memory)
    }
}

impl<T: Drop> From<AllocFailed<T>> for PoolErr {
    ghost from_gives = { λ _ r. r ≡ Disk Memory };

    fn from(_: AllocFailed<T>) -> Self {
        PoolErr::Disk(DiskErr::Memory)
    }
}
