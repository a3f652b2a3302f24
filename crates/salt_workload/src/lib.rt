//! The lines of a workload, each found by its number.
#![tactic(auto)]

mod counts;
mod lines;
mod places;
mod summary;
mod trees;
mod workload;

pub use summary::print_summary;
pub use workload::{line_count, load_line};
