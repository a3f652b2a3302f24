//! An open unit: its variables, its changes, and the view of the tables under its changes.
#![tactic(auto)]

mod acting;
mod edits;
mod keys;
mod laws;
mod overlay;
mod putting;
mod storing;
mod unit;

pub use acting::execute_under;
pub use keys::leaves_keys;
pub use laws::rows_stay_at_their_keys;
pub use overlay::{Cursor, Overlay};
pub use putting::put_changes;
pub use unit::OpenUnit;
