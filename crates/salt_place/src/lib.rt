//! Which partition a key's row stands in, and which ranges of keys lie in one.
#![tactic(auto)]

mod part;
mod placement;

pub use part::one_part;
pub use placement::{PlaceKind, Placement, Shape, place_of};
