//! Where a BASE program goes on, and how many of its statements may still run.
#![tactic(auto)]

mod laws;
mod places;
mod rests;
mod ways;

pub use laws::{
    accepted_leads_on, branches_move, commits_move, limited_are_few, named_are_few, named_leads_on,
};
pub use places::advance;
pub use rests::rest;
pub use salt_bytes::Move;
pub use salt_values::Cont;
pub use ways::{at_number, parts_of};
