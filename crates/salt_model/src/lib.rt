//! The story that a run prints: its events, and what a story has to be (in specs/).
#![tactic(auto)]

mod events;
mod locks;
mod places;
mod shown;
mod vars;

pub use events::{Answer, Cause, End, Event, Flight, Owner, Owners, Refusal, Story, UnitKind, Why};
pub use locks::{Family, Lock, Mode, Reach};
pub use places::{Place, first_place};
pub use shown::{BaseAt, Item, Items};
pub use vars::{Binding, Vars};
