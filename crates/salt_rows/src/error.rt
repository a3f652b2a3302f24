//! Why a store of rows is not opened.

ghost use Rattle.salt_disk.specs.declared.disks.DiskErr.TheVariants.{Memory};
ghost use Rattle.salt_rows.specs.Errors.{unlisted};
ghost use Rattle.salt_rows.specs.declared.error.RowsErr.TheVariants.{Disk};
ghost use Rattle.std.specs.Prelude.{◌≡◌};

use salt_directory::ListErr;
use salt_disk::DiskErr;
use std::alloc::{AllocError, AllocFailed};

/// Why a store of rows is not opened.
#[derive(Clone, Copy, Debug, PartialEq, Eq)]
pub enum RowsErr {
    /// A page that is listed spells no page, or two rows stand at one place.
    NotPage,
    /// A row on a page that is listed is not sound.
    NotRow,
    /// A device call has not done what it was asked to, or memory ran out.
    Disk(DiskErr),
}

impl From<DiskErr> for RowsErr {
    ghost from_gives = { λ e r. r ≡ Disk e };

    fn from(e: DiskErr) -> Self {
        RowsErr::Disk(e)
    }
}

impl From<ListErr> for RowsErr {
    ghost from_gives = { λ e r. r ≡ unlisted e };

    fn from(e: ListErr) -> Self {
        match e {
            ListErr::Twins => RowsErr::NotPage,
            ListErr::Unsound => RowsErr::NotRow,
            ListErr::Memory => RowsErr::Disk(DiskErr::Memory),
        }
    }
}

impl From<AllocError> for RowsErr {
    ghost from_gives = { λ _ r. r ≡ Disk Memory };

    fn from(_: AllocError) -> Self {
        RowsErr::Disk(DiskErr::Memory)
    }
}

impl<T: Drop> From<AllocFailed<T>> for RowsErr {
    ghost from_gives = { λ _ r. r ≡ Disk Memory };

    fn from(_: AllocFailed<T>) -> Self {
        RowsErr::Disk(DiskErr::Memory)
    }
}
