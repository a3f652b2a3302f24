//! What an engine keeps, how it goes on with each event of a played trace, and that it tells what comes next.
//!
//! The definitions are read in this order:
//! - OpenUnits, Steps, Keeps: units and tables, what an event makes of them, and of which trace they are;
//! - KeptLocks, KeptWaits, KeptSources, KeptPrograms, KeptCover, Watches: locks, waits, writers, pairs and programs;
//! - UnitFacts, WatchSteps, States: what an event makes of these, and the whole;
//! - Told, Follows, Refused, Readings, Nexts: what a state tells of what comes next;
//! - Circles: who waits for whom, and when no circle of waits can come;
//! - Points, Settling: moves of a run, and why settling ends;
//! - PlainStates, StateRows: the state by lists, computed, and worked rows of it;
//! - Overlays, LockCalls, DependencyCalls, Restoring: for the crates that keep the parts.
#![tactic(auto)]

mod laws;

pub use laws::{
    circles_come_with_waits, clashes_come_from_kept_locks, cover_and_group_are_kept_at_early,
    dependencies_change, dependency_calls_fit, each_trace_has_its_state, edits_make_the_tables,
    failures_use_a_try, finishes_fit, lines_move_no_dependency, lines_move_no_lock,
    lines_move_no_wait, lock_calls_fit, locks_change, names_rise, none_is_due_between_finishes,
    nothing_is_kept_at_ready, one_place_changes, open_units_are_listed, pairs_are_closed_by_rounds,
    plain_states_go_on, points_go_on, programs_finish_once_and_first_parts_are_unseen,
    releases_come_from_what_is_kept, restoring_gives_cover_and_group, rounds_find_cycles,
    service_comes_from_what_is_kept, settling_ends, settling_ends_settled,
    statements_are_done_under_edits, states_go_on, states_tell_what_comes_next,
    states_tell_what_stands_beside, tables_keep_locks, tables_tell_locks, traces_move_their_points,
    units_are_looked_up, units_go_on, units_wait_once, unreleased_programs_change,
    victim_comes_from_what_is_kept, waits_change, watches_go_on,
};
