//! Ranges of keys.
#![tactic(auto)]

mod range;

pub use range::{KeyRange, ends_meet, is_above_low};
