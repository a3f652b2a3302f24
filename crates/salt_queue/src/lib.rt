//! A list whose first items go at no cost.
#![tactic(auto)]

mod queue;

pub use queue::Queue;
