//! The partitions of a store: they are read and judged, all of them before one is written, and then their decided units are applied.
#![tactic(auto)]

mod judge;
mod load;
mod read;
mod redo;
mod ruling;

pub use judge::{PartJudge, part_of};
pub use load::load_all;
pub use read::read_all;
pub use redo::redo_all;
pub use ruling::Ruling;
