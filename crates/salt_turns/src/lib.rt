//! The turns of a unit's commit over messages, one event after another: what each does is told before it is done.
#![tactic(auto)]

mod coming;

pub use coming::{Next, begin, go_on, has_next, next_of, next_vote, pass};
