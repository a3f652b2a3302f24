//! Which waiting unit is given up where units wait for each other in a circle.
#![tactic(auto)]

mod graph;
mod laws;
mod units;
mod walk;

pub use laws::victims_fit;
pub use units::{WaitUnit, victim};
