//! What an engine keeps of locks, waits, unreleased programs and of who reads from whom, and what each event makes of it.
//!
//! `Watching` stands for a watch of the state (`specs/Watched.antt`): its calls make of it what the events make of that, and
//! its queries tell what is read off it, in whatever way it is read.
#![tactic(auto)]

mod graph;
mod holders;
mod laws;
mod programs;
mod served;
mod shown;
mod waiters;
mod watching;

pub use laws::{
    finishes_are_marked, other_events_leave_the_watch, readings_are_there,
    waiting_units_are_distinct,
};
pub use waiters::Waiter;
pub use watching::Watching;
