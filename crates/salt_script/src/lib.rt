//! Which line of a script some bytes spell.
#![tactic(auto)]

mod act;
mod args;
mod error;
mod form;
mod laws;
mod line;
mod pairs;

pub use error::ReadErr;
pub use laws::one_line;
pub use line::read_line;
