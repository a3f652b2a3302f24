//! What is to come next.

use crate::asking::Asking;
use salt_model::{Cause, Event};
use salt_values::Id;

/// What is to come next: nothing more, an event that is done already, or one for which the devices are needed first.
#[derive(Drop)]
pub enum Coming {
    Nothing,
    /// The event is done, and is to be told.
    Told(Event),
    /// A unit does the statement that it asks for.
    Act(Asking),
    /// A unit commits.
    Commit(Id),
    /// A unit of a later part of this program has failed, and the program goes on behind the failure.
    Branch { unit: Id, base: Id, cause: Cause },
}
