//! Frames for the pages of a device.
#![tactic(auto)]

mod codec;
mod error;
mod flush;
mod pages;
mod places;
mod pool;
mod reading;

pub use codec::PageCodec;
pub use error::PoolErr;
pub use pages::PageSpelling;
pub use places::FRAMES;
pub use pool::Pool;
