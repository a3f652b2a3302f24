//! The programs defined, and what is refused of programs and calls under them.
#![tactic(auto)]

mod branches;
mod catalogue;
mod error;
mod refusal;
mod statements;

pub use catalogue::{Catalogue, are_arguments};
pub use error::DefineErr;
