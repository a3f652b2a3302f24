//! What a run promises: the definitions that its clauses cite; the command that it is given, and what it leaves.
#![tactic(auto)]

mod command;
mod ended;
mod status;

pub use command::{Command, Setting};
pub use ended::Ended;
pub use status::Status;
