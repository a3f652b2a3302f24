//! The devices of a partition.

ghost use Rattle.salt_partition.specs.Choices.{which_of};
ghost use Rattle.salt_stands.specs.Coordinator.{device_of};
ghost use Rattle.salt_stands.specs.Partition.{pages_device, part_device};
ghost use Rattle.std.specs.Prelude.{◌≡◌};

use crate::generations::Side;

/// Its log A.
pub fn log_a(part: u8) -> u32
    ensures { result ≡ part_device part }
{
    2 + 3 * u32::from(part)
}

/// A log of its pair.
pub fn log_of(part: u8, side: Side) -> u32
    ensures { result ≡ device_of (part_device part) (which_of side) }
{
    match side {
        Side::A => log_a(part),
        Side::B => log_a(part) + 1,
    }
}

/// Its pages.
pub fn pages_of(part: u8) -> u32
    ensures { result ≡ pages_device part }
{
    4 + 3 * u32::from(part)
}
