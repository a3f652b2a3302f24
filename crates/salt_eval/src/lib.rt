//! Statements, done over a view of the rows that they reach.
#![tactic(auto)]

mod after;
mod cells;
mod changed;
mod coming;
mod error;
mod laws;
mod map_view;
mod meets;
mod reaches;
mod scan;
mod select;
mod shown;
mod statements;
mod view;

pub use after::{next_row, start_of};
pub use error::StatementErr;
pub use laws::statements_see_their_reach;
pub use map_view::{MapView, Tables};
pub use meets::meets_table;
pub use reaches::{reach, table_in};
pub use scan::{key_of, point_of};
pub use statements::execute;
pub use view::{RowView, ViewErr};
