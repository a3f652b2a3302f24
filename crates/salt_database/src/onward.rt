//! What an opening does behind an event.

use salt_model::Event;
use salt_scheduler::Scheduler;

/// What comes behind an event of an opening: the next one, or behind its end the half in memory by which lines are served.
#[derive(Drop)]
pub(crate) enum Onward {
    Next(Event),
    Served(Scheduler),
}
