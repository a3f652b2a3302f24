//! Why nothing is opened.

ghost use Rattle.salt_gatelog.specs.Answers.{open_err_of, open_err_of_pair};
ghost use Rattle.salt_gatelog.specs.declared.unopened.OpenErr.TheVariants.{Memory};
ghost use Rattle.std.specs.Prelude.{◌≡◌};

use crate::pair::PairErr;
use salt_disk::DiskErr;
use salt_place::Shape;
use std::alloc::AllocError;

/// Why devices are not opened.
#[derive(Clone, Copy, Debug, PartialEq, Eq)]
pub enum OpenErr {
    /// What stands on the device of this number, or on the pair that its fault counts against, is nothing that was written here.
    NotSalt(u32),
    /// The devices stand for another shape than was asked for.
    OtherShape { kept: Shape, asked: Shape },
    /// The boots or the decisions have come to 2^63.
    NumbersSpent { boot: u64, decisions: u64 },
    /// The disks have failed.
    Failed,
    /// A stop that was armed came.
    Stopped,
    /// A write would pass the limit of the device of this number.
    Full(u32),
    /// Memory ran out.
    Memory,
}

impl From<DiskErr> for OpenErr {
    ghost from_gives = { λ e f. f ≡ open_err_of e };

    fn from(e: DiskErr) -> OpenErr {
        match e {
            DiskErr::Failed => OpenErr::Failed,
            DiskErr::Stopped => OpenErr::Stopped,
            DiskErr::Full(dev) => OpenErr::Full(dev),
            DiskErr::Memory => OpenErr::Memory,
        }
    }
}

impl From<PairErr> for OpenErr {
    ghost from_gives = { λ e f. f ≡ open_err_of_pair e };

    fn from(e: PairErr) -> OpenErr {
        match e {
            PairErr::NotSalt(dev) => OpenErr::NotSalt(dev),
            PairErr::Disk(e) => OpenErr::from(e),
        }
    }
}

impl From<AllocError> for OpenErr {
    ghost from_gives = { λ _ e. e ≡ Memory };

    fn from(_e: AllocError) -> OpenErr {
        OpenErr::Memory
    }
}
