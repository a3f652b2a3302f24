//! What a story tells, counted.

ghost use Rattle.std.specs.Prelude.{◌≡◌, ◌++◌, ◌-◌, ◌<◌, ◌^◌, ◌∷◌, [], List, None, length};
ghost use Rattle.std.specs.Option.{option_copied};
ghost use Rattle.salt_model.specs.Summary.{last_value};
ghost use Rattle.salt_workload.specs.Summary.{cell_of};
ghost use Rattle.salt_model.specs.declared.events.Event.{Event};
ghost use Rattle.salt_workload.specs.Counts.{AreCounts};

use salt_model::{Answer, End, Event};
use salt_values::Value;

/// How often a story tells what a summary counts.
#[derive(Clone, Copy, Debug, PartialEq, Eq)]
pub struct Counts {
    pub units: usize,
    pub committed: usize,
    pub accepted: usize,
    pub released: u128,
    pub waits: usize,
    pub victims: usize,
}

impl Counts {
    /// Counts an event.
    fn add(&mut self, event: &Event)
        requires { (story : List Event) × AreCounts self.old story × (length story < 2 ^ 64 - 1) }
        ensures { (story : List Event) → AreCounts self.old story → AreCounts self.new (story ++ event.now ∷ []) }
    {
        match event {
            Event::Began { .. } => self.units += 1,
            Event::Ended {
                end: End::Committed(_),
                ..
            } => self.committed += 1,
            Event::Ended {
                end: End::Victim,
                ..
            } => self.victims += 1,
            Event::Accepted(_) => self.accepted += 1,
            Event::Released(bases) => self.released += bases.len() as u128,
            Event::Waits { .. } => self.waits += 1,
            _ => (),
        }
    }
}

/// What is counted of a story.
pub fn counts_of(story: &[Event]) -> Counts
    ensures { AreCounts result story.now }
{
    let mut counts = Counts {
        units: 0,
        committed: 0,
        accepted: 0,
        released: 0,
        waits: 0,
        victims: 0,
    };
    for event in story {
        counts.add(event);
    }
    counts
}

/// The one value that an answer is.
fn cell_of(answer: &Answer) -> Option<&Value>
    ensures { option_copied result ≡ cell_of answer.now }
{
    match answer {
        Answer::Cell(value) => value.as_ref(),
        _ => None,
    }
}

/// The value that the last statement gave, behind this event; before it, this one was found.
fn value_after<'a>(event: &'a Event, found: Option<&'a Value>) -> Option<&'a Value>
    ensures { option_copied result ≡ last_value (option_copied found.entry) (event.now ∷ []) }
{
    match event {
        Event::Did { answer, .. } => cell_of(answer),
        _ => found,
    }
}

/// The value that the last statement gave.
pub fn last_value(story: &[Event]) -> Option<&Value>
    ensures { option_copied result ≡ last_value None story.now }
{
    let mut found = None;
    for event in story {
        found = value_after(event, found);
    }
    found
}
