//! What comes next in an opening, behind its Opened until it is ready: units of earlier boots are cut, and programs go on, one
//! after another.
//!
//! `Recovery` chooses, and does what needs no device; what needs them is done by a second call, once they have decided it or
//! given its rows. Nothing waits in an opening, so it keeps no locks: of what a state watches it says nothing.
#![tactic(auto)]

mod behind;
mod choices;
mod decided;
mod recovery;

pub use behind::Behind;
pub use recovery::Recovery;
