//! Room in the logs of a store: they begin new generations.
#![tactic(auto)]

mod checkpoints;
mod making;
mod migration;
mod renewal;

pub use checkpoints::{MOST_UNITS, checkpoint_all, checkpoint_full, checkpoint_older};
pub use making::{MOST_ENTRIES, make_room, renew_full};
pub use migration::migrate;
pub use renewal::renew;
