//! The engine: it does a line, and tells the events that come next, over a storage.
//!
//! `salt_scheduler` chooses in memory what comes next; what is decided or read is asked of a `salt_storage::Storage`. An engine is made
//! behind the Ready or the Early of an opening, and is given up for one. What an opening does as an engine does is here too: its stage, what it asks
//! of a storage, and what was in flight where that was broken off.
#![tactic(auto)]

mod deciding;
mod engine;
mod flights;
mod given;
mod lines;
mod resuming;
mod serving;
mod stage;
mod stepping;

pub use engine::{Engine, GivenUp};
pub use flights::{InFlight, flight_of};
pub use given::{Given, is_open, provide};
pub use resuming::resume;
pub use stage::Stage;
