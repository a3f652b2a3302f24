//! What an engine begins with behind an early opening: the cover of the base tables, and the group of the programs that it names.
#![tactic(auto)]

mod cover;
mod restoring;

pub use restoring::{Restored, restore};
