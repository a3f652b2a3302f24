//! The rows of one partition on the pages of a device.
#![tactic(auto)]

mod changes;
mod error;
mod flush;
mod frame;
mod open;
mod reads;
mod split;
mod store;

pub use error::RowsErr;
pub use open::open_rows;
pub use store::RowStore;
