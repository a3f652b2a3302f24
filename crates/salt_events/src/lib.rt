//! The texts of events, read back.
#![tactic(auto)]

mod definitions;
mod events;
mod fronts;
mod items;
mod laws;
mod lines;
mod lists;
mod names;
mod parts;
mod refusals;
mod statements;
mod values;

pub use definitions::read_definition;
pub use events::read_event;
pub use items::read_item;
pub use laws::{events_are_read, items_are_read, lines_are_read};
pub use lines::{ReadErr, read_line};
