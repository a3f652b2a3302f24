//! A unit's shares are prepared in the partitions of a store, and applied.
#![tactic(auto)]

mod apply;
mod prepare;

pub use apply::{apply_all, apply_share};
pub use prepare::{prepare_all, prepare_share};
