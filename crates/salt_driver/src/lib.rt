//! How an engine does a line: its moves from point to point become the line's segment of a played trace. And how it is opened.
#![tactic(auto)]

mod engine;
mod finding;
mod openable;
mod opening;
mod serving;

pub use engine::Stepping;
pub use finding::find;
pub use openable::Openable;
pub use opening::{drain, events_behind, open, recover};
pub use serving::{refuse, step};
