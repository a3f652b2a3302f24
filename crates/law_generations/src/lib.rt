//! Laws of new generations: what a checkpoint and a snapshot leave of a store as it was.
#![tactic(auto)]

mod laws;

pub use laws::{checkpoints_make_generations, generations_go_on, snapshots_make_generations};
