//! Why a call on a store has not done what it was asked to.

use salt_disk::DiskErr;

/// Why a call on a store has not done what it was asked to: what the devices answered, or memory ran out. After any of these the
/// store is opened again before it is used.
pub type StoreErr = DiskErr;
