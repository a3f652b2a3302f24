//! A store over devices: the coordinator's log and the partitions, as one. A unit is prepared in each partition that it changes,
//! then decided, and then applied; a stop at any moment leaves what stood before it, or what stands with it. Before anything is
//! appended, logs that have too much behind their headers begin new generations.
#![tactic(auto)]

mod again;
mod commit;
mod each;
mod entries;
mod error;
mod load;
mod migration;
mod named;
mod nodes;
mod open;
mod parts;
mod reads;
mod room;
mod shares;
mod store;
mod tell;
mod vote;

pub use error::StoreErr;
pub use open::open_store;
pub use salt_decisions::{Kept, OpenErr, peek};
pub use store::Store;
