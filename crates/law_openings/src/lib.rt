//! How a run is opened again after a stop, as moves of its point; and that an opening goes on until it is ready, or ends early, and ends.
//!
//! The definitions are read in this order:
//! - Openings: a stop in an opening and while the run is down, and the opening of a run;
//! - Draining: what an opening can carry to its end, how much is left of it, and how its units stand;
//! - DrainRows: openings that are computed event by event.
#![tactic(auto)]

mod laws;

pub use laws::{
    drains_do_their_rests, drains_go_on, drains_never_rest, early_openings_do_no_statement,
    events_leave_a_state, openings_do_their_rests, openings_end, openings_go_on,
    openings_tell_what_follows, traces_open_their_points, what_can_be_drained_stays,
};
