//! What units do is of the types that are declared: expressions, statements, and what is kept behind their ends.
#![tactic(auto)]

mod laws;
mod told_laws;

pub use laws::{
    changes_keep_rows, definitions_keep_types, ends_keep_types, expressions_give_their_kinds,
    found_is_typed, judged_statements_stay_judged, moves_keep_types, played_is_typed,
    read_lines_have_keys, spelled_tables_have_keys, statements_keep_types,
    states_are_of_their_types, typed_changes_are_sound, units_begin_typed,
};
pub use told_laws::{schemas_grow, shown_locks_are_of_tables, stories_read_the_same};
