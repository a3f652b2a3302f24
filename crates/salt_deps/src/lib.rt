//! What programs read from each other, and which of them are released.
#![tactic(auto)]

mod deps;
mod due;
mod ends;
mod group;
mod links;
mod places;
mod readings;
mod sets;
mod walks;
mod writers;

pub use deps::Deps;
pub use sets::set_of;
