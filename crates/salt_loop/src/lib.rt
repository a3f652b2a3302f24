//! A run: its opening, and its lines, done by a database and told to a sink.
#![tactic(auto)]

mod lines;
mod loading;
mod serving;
mod starting;
mod stop;
mod telling;

pub use loading::{Loaded, load};
pub use salt_promise::Status;
pub use serving::serve;
pub use starting::tell_unfound;
pub use stop::{Stop, stop_opening};
