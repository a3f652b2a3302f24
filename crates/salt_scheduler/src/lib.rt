//! The scheduler of an engine: what comes next in a line.
//!
//! `Scheduler` chooses by small functions, each of which tells what is to come and, where no device is needed for it, has done
//! it: units are in its books, locks and waits in its watch. What needs the devices is done by a second call, once they have
//! decided it or given its rows.
#![tactic(auto)]

mod answers;
mod called;
mod circles;
mod ends;
mod follow;
mod judge;
mod kinds;
mod lines;
mod programs;
mod refusal;
mod scheduler;
mod shows;
mod turns;

pub use judge::line_refusal;
pub use kinds::is_statement_line;
pub use refusal::shares;
pub use scheduler::Scheduler;
