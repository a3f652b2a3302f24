//! How each thing that stands on a device is spelled in bytes, and what bytes spell.
#![tactic(auto)]

mod laws;
mod moves;

pub use laws::{
    entries_are_read, headers_are_read, moves_are_read, moves_have_one_spelling,
    no_row_begins_another, pages_are_read, partition_headers_are_read, prepared_units_are_read,
    rows_are_taken, rows_have_one_spelling,
};
pub use moves::Move;
