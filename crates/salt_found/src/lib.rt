//! What the coordinator's log keeps is read and judged, as whoever opens a database has to: its definitions, and where BASE
//! programs go on.
#![tactic(auto)]

mod conts;
mod definitions;
mod error;
mod fits;
mod moves;
mod reads;
mod recovery;

pub use conts::open_conts;
pub use definitions::open_definitions;
pub use error::{ContErr, RecoverErr};
pub use recovery::{Recovered, recover};
