//! The devices of a database: what every layer above sees of them, and devices in memory.
#![tactic(auto)]

mod calls;
mod covers;
mod device;
mod devices;
mod disks;
mod marks;
mod memory;

pub use devices::copy_from;
pub use disks::{DiskErr, Disks, write_and_sync};
pub use memory::MemDisks;
