//! Rows and moves as the bytes that devices keep, written and read.
#![tactic(auto)]

mod changes;
mod error;
mod header;
mod moves;
mod order;
mod prepared;
pub mod put;
mod rows;
pub mod take;
mod told;

pub use error::{RowErr, TakeErr};
pub use header::{Header, read_header, spell_header};
pub use moves::{has_nulls, spelled_move, take_cont, take_move};
pub use order::{are_in_order, is_before};
pub use prepared::{PreparedUnit, read_prepared, with_prepared};
pub use rows::{put_row, take_row};
pub use told::{told_changes, told_row};
