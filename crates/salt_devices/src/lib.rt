//! The storage of a database over its devices.
//!
//! The definitions are read in this order:
//! - Settling and Leaving: devices that were started, and what an opening may come upon there;
//! - Holding: how a store stands whatever the disks tell, and what it holds of a database where they do;
//! - Remembering: the numbers that are remembered of it behind a call that was broken off;
//! - Standing: the three ways in which a database stands on its devices;
//! - Opened and Refusing: what an opening finds, and what it answers;
//! - Writing and Filling: what can be written of a unit, and where a write would pass a device's limit.
#![tactic(auto)]

mod again;
mod devices;
mod fits;
mod held;
mod open;
mod pending;
mod told;

pub use devices::Devices;
