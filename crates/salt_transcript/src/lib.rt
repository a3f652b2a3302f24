//! The verdict on a transcript: its lines are read, and each event is judged.
#![tactic(auto)]

mod front;
mod pieces;
mod reader;
mod source;
mod words;

pub use source::{AuditErr, audit};
pub use words::print_verdict;
