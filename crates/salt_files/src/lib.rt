//! Devices that are the files of a folder.
#![tactic(auto)]

mod calls;
mod file_disks;
mod holding;
mod opening;

pub use file_disks::FileDisks;
pub use holding::TryHold;
