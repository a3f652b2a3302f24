//! One partition: its rows on pages, the units that are prepared in its log, and the checkpoints that begin the log anew.
#![tactic(auto)]

mod checkpoint;
mod create;
mod found;
mod open;
mod partition;
mod redo;
mod reopen;

pub use create::create_partition;
pub use found::{FoundLog, find_log};
pub use open::open_partition;
pub use partition::Partition;
pub use redo::ReadPartition;
