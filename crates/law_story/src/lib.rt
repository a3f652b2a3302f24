//! The laws of the protocol, proved from the definitions of the story alone, through every stop and opening.
#![tactic(auto)]

mod laws;

pub use laws::{
    changes_are_those_written, continuations_keep_names, held_locks_stand_together,
    kept_stays_well_kept, late_openings_are_as_ever, played_is_continued, played_is_declared,
    played_is_honest, played_is_kept, played_is_salted, played_is_whole, played_releases_exactly,
    sources_are_read_through, stops_are_armed_by_their_lines, tries_are_counted,
    victim_is_youngest_on_cycle, writers_are_last,
};
