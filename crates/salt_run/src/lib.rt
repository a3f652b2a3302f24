//! The top call: a script in, its story out.
#![tactic(auto)]

mod audits;
mod command;
mod promises;
mod runs;

pub use command::run;
pub use salt_promise::{Ended, Status};
pub use salt_words::folder_of;
