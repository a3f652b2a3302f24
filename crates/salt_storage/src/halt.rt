//! Why a line or an opening is broken off.

ghost use Rattle.std.specs.Prelude.{◌≡◌};
ghost use Rattle.salt_storage.specs.Answers.{disk_err_of, halted_by};
ghost use Rattle.salt_storage.specs.declared.halt.Halt.TheVariants.{Memory};

use salt_disk::DiskErr;
use salt_gatelog::OpenErr;
use std::alloc::AllocError;
use thiserror::Error;

/// Why a line or an opening is broken off. Behind each of them the storage is opened anew before it is used, or the run ends.
#[derive(Clone, Copy, Debug, PartialEq, Eq, Error)]
pub enum Halt {
    #[error("the devices were stopped")]
    Stopped,
    #[error("a device failed")]
    DiskFault,
    #[error("device {0} is full")]
    DeviceFull(u32),
    #[error("memory ran out")]
    Memory,
}

impl From<AllocError> for Halt {
    ghost from_gives = { λ _ e. e ≡ Memory };

    fn from(_: AllocError) -> Self {
        Halt::Memory
    }
}

impl From<DiskErr> for Halt {
    ghost from_gives = { λ e halt. disk_err_of halt ≡ e };

    fn from(e: DiskErr) -> Self {
        match e {
            DiskErr::Stopped => Halt::Stopped,
            DiskErr::Failed => Halt::DiskFault,
            DiskErr::Full(dev) => Halt::DeviceFull(dev),
            DiskErr::Memory => Halt::Memory,
        }
    }
}

impl From<Halt> for OpenErr {
    ghost from_gives = { λ halt e. e ≡ halted_by halt };

    fn from(halt: Halt) -> Self {
        match halt {
            Halt::Stopped => OpenErr::Stopped,
            Halt::DiskFault => OpenErr::Failed,
            Halt::DeviceFull(dev) => OpenErr::Full(dev),
            Halt::Memory => OpenErr::Memory,
        }
    }
}
