//! What every layer above sees of the devices.
ghost use Rattle.std.specs.Prelude.{Err, ◌≡◌, ℕ, ◌+◌, ◌^◌, ◌<◌, ◌≤◌, ◌++◌, ◌∷◌, [], IsTrue, false, length, IfOk, OnOk, OnErr};
ghost use Rattle.std.specs.Result.{result_err};
ghost use Rattle.salt_disk.specs.Disks.{View, IsSettled, Shrinks, AreUnchanged, KeepsOthers, KeepsAll, IfNothingDone, IsUnchanged};
ghost use Rattle.salt_disk.specs.Disks.{HasCause, FullExactly, NeverFull, OnlyFails, Rose, written, Tears, IsRead, IsRestarted};
ghost use Rattle.salt_disk.specs.declared.disks.DiskErr.TheVariants.{Full, Memory, Stopped};

use std::alloc::{AllocError, AllocFailed};
use thiserror::Error;

/// Why a device call has not done what it was asked to.
#[derive(Clone, Copy, Debug, PartialEq, Eq, Error)]
pub enum DiskErr {
    /// The disks have failed. Until a restart nothing is known of a device but its images.
    #[error("the disks failed")]
    Failed,
    /// A stop that was armed came, and nothing is pending.
    #[error("the disks stopped")]
    Stopped,
    /// The write would pass the limit of the device of this number, and has changed nothing.
    #[error("device {0} is full")]
    Full(u32),
    /// No memory was left, and nothing has changed.
    #[error("no memory is left")]
    Memory,
}

impl From<AllocError> for DiskErr {
    ghost from_gives = { λ _ e. e ≡ Memory };

    fn from(_: AllocError) -> Self {
        DiskErr::Memory
    }
}

impl<T: Drop> From<AllocFailed<T>> for DiskErr {
    ghost from_gives = { λ _ e. e ≡ Memory };

    fn from(_: AllocFailed<T>) -> Self {
        DiskErr::Memory
    }
}

/// Devices of bytes, by number from 0. What a write leaves of a device before the next sync of it,
/// where a stop cuts it short, is one of the device's images.
pub trait Disks {
    /// What contracts see: the bytes and the images of each device, the count of faults, and the stops that are armed.
    ghost view: { Self → View };

    /// Puts the device's bytes from `at` on at the start of `buf`, and gives how many: fewer than
    /// `buf` holds only at the device's end. `Memory` leaves each device as it was; after `Failed` each
    /// image of a device is one from before, and no more is known.
    fn read(&mut self, dev: u32, at: u64, buf: &mut [u8]) -> Result<usize, DiskErr>
        requires { dev < (view self.old).count }
        ensures bytes { IfOk result (λ n. IsTrue (view self.old).told → IsRead ((view self.old).bytes dev) at buf.old buf.new n) }
        ensures within { IfOk result (λ n. n ≤ length buf.old) }
        ensures length { OnOk result (IsTrue (view self.old).told → length ((view self.old).bytes dev) < 2 ^ 64) }
        ensures kept { KeepsAll (view self.old) (view self.new) (result_err result) }
        ensures cause { HasCause (view self.old) (view self.new) (result_err result) }
        ensures answers { OnlyFails (result_err result) };

    /// Writes over what stands from `at` on, and past the end. Until a sync of the device its images
    /// have any bytes there. `Full` and `Memory` change nothing.
    fn write_at(&mut self, dev: u32, at: u64, bytes: &[u8]) -> Result<(), DiskErr>
        requires known { dev < (view self.old).count }
        requires place { IsTrue (view self.old).told → at ≤ length ((view self.old).bytes dev) }
        ensures ok { OnOk result (IsTrue (view self.old).told → (view self.new).bytes dev ≡ written ((view self.old).bytes dev) at bytes.now) }
        ensures nothing { IfNothingDone (result_err result) (IsUnchanged (view self.old) (view self.new) dev) }
        ensures images { Tears (view self.old) (view self.new) dev at (length bytes.now) }
        ensures others { KeepsOthers dev (view self.old) (view self.new) (result_err result) }
        ensures stopped { result ≡ Err Stopped → (d : _) → d < (view self.old).count → IsSettled (view self.new) d }
        ensures cause { HasCause (view self.old) (view self.new) (result_err result) }
        ensures full { FullExactly dev ((view self.old).limit dev) (at + length bytes.now) (result_err result) }
        ensures limit { (view self.old).limit dev < 2 ^ 64 };

    /// Makes what was written to the device stable: after it nothing is pending there.
    fn sync(&mut self, dev: u32) -> Result<(), DiskErr>
        requires { dev < (view self.old).count }
        ensures ok { OnOk result (IsSettled (view self.new) dev) }
        ensures bytes { OnOk result ((view self.new).bytes dev ≡ (view self.old).bytes dev) }
        ensures nothing { IfNothingDone (result_err result) (IsUnchanged (view self.old) (view self.new) dev) }
        ensures images { Shrinks (view self.old) (view self.new) dev }
        ensures others { KeepsOthers dev (view self.old) (view self.new) (result_err result) }
        ensures stopped { result ≡ Err Stopped → (d : _) → d < (view self.old).count → IsSettled (view self.new) d }
        ensures cause { HasCause (view self.old) (view self.new) (result_err result) }
        ensures answers { NeverFull (result_err result) };

    /// Starts the disks again, after a fault or a stop: each device is one of its images, and
    /// nothing is pending.
    fn restart(&mut self)
        ensures { IsRestarted (view self.old) (view self.new) };

    /// Whether its bytes are told: what stands there is what was written.
    fn is_told(&self) -> bool
        ensures { result ≡ (view self.now).told };

    /// Whether a stop can be armed.
    fn can_stop(&self) -> bool
        ensures { result ≡ (view self.now).can_stop };

    /// Adds a stop behind those that are armed. It comes at the `calls`-th write or sync from when
    /// its turn comes, or at the next one for 0; `pick` chooses the image that it leaves.
    fn arm(&mut self, calls: u64, pick: u8) -> Result<(), AllocError>
        requires able { IsTrue (view self.old).can_stop }
        requires pick { pick ≤ 4 }
        ensures ok { OnOk result ((view self.new).armed ≡ (view self.old).armed ++ (calls, pick) ∷ []) }
        ensures err { OnErr result ((view self.new).armed ≡ (view self.old).armed) }
        ensures faults { (view self.new).faults ≡ (view self.old).faults }
        ensures kept { AreUnchanged (view self.old) (view self.new) };

    /// Counts a fault where the disks gave other bytes than were written.
    fn reject(&mut self)
        requires { (view self.old).told ≡ false }
        ensures faults { Rose (view self.old).faults (view self.new).faults }
        ensures later { (view self.old).faults ≤ (view self.new).faults }
        ensures stops { (view self.new).armed ≡ (view self.old).armed }
        ensures kept { AreUnchanged (view self.old) (view self.new) };
}

/// Writes over what stands from `at` on, and past the end, and makes it stable: after it nothing is pending on the
/// device. After an error its images have any bytes where the write was to be.
pub fn write_and_sync<D: Disks>(
    disks: &mut D,
    dev: u32,
    at: u64,
    bytes: &[u8],
) -> Result<(), DiskErr>
    requires known { dev < (D.view disks.old).count }
    requires place { IsTrue (D.view disks.old).told → at ≤ length ((D.view disks.old).bytes dev) }
    ensures settled { OnOk result (IsSettled (D.view disks.new) dev) }
    ensures bytes { OnOk result (IsTrue (D.view disks.old).told → (D.view disks.new).bytes dev ≡ written ((D.view disks.old).bytes dev) at bytes.now) }
    ensures images { Tears (D.view disks.old) (D.view disks.new) dev at (length bytes.now) }
    ensures others { KeepsOthers dev (D.view disks.old) (D.view disks.new) (result_err result) }
    ensures cause { HasCause (D.view disks.old) (D.view disks.new) (result_err result) }
    ensures full { FullExactly dev ((D.view disks.old).limit dev) (at + length bytes.now) (result_err result) }
    ensures untouched { (n : ℕ) → result ≡ Err (Full n) → IsUnchanged (D.view disks.old) (D.view disks.new) dev }
    ensures limit { (D.view disks.old).limit dev < 2 ^ 64 }
{
    disks.write_at(dev, at, bytes)?;
    disks.sync(dev)
}
