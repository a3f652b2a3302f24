//! A log of entries on one device. Each entry stands behind a gate: one byte, that is closed on the disk before the entry is
//! written and is opened by a write of its own. So a stop leaves the entries from before, with the new one or without it.
#![tactic(auto)]

mod block;
mod entry;
mod log;
mod open;
mod pair;
mod unopened;

pub use entry::rejected;
pub use log::{GateLog, create, new_frame};
pub use open::{LogErr, open_log};
pub use pair::{PairErr, follows, next_generation};
pub use unopened::OpenErr;
