//! The verdict on a transcript: the laws, judged event by event.
#![tactic(auto)]

mod acts;
mod again;
mod answers;
mod goings;
mod honest;
mod laws;
mod ledger;
mod rows;
mod start;
mod steps;
mod variables;

pub use again::{Again, do_again};
pub use honest::{add_if, amiss, unfaithful};
pub use laws::{
    changes_tell_the_unfaithful, holding_goes_on, honest_is_exact, runs_make_the_tables,
};
pub use ledger::{Act, Acts, Ledger};
pub use rows::Rows;
pub use start::nothing_told;
pub use steps::{run_again, take_event};
