//! What comes next in a run may be decided over a storage, and leaves there what may be kept.
//!
//! The definitions are read in this order:
//! - Ending: a decided end that comes next, and what it leaves;
//! - Defining: a definition that may be made;
//! - Spelled: lines whose definitions texts spell;
//! - Naming: the names of open units, and the units that may still be decided.
#![tactic(auto)]

mod laws;

pub use laws::{
    decided_ends_may_be_kept, definitions_may_be_kept, flights_leave_the_same,
    played_does_its_rests, read_lines_are_spelled, starts_may_be_kept, units_are_decided_once,
    units_of_the_boot_are_named_so,
};
