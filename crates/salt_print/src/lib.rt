//! The texts of events and stories, written to a sink.
#![tactic(auto)]

mod events;
mod names;
mod parts;
mod shown;

pub use events::{print, print_story};
