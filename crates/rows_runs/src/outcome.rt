//! What comes of a run.

use salt_model::Flight;
use salt_run::{Ended, Status};
use std::alloc::{AllocError, Global};
use std::marker::Model;

/// How a run has ended, what it wrote, and the decision that was in flight.
pub struct Outcome {
    status: Status,
    text: Vec<u8>,
    flight: Option<Flight>,
}

impl Drop for Outcome {
    fn drop(self) {
        let Outcome {
            status: _status,
            text: _text,
            flight: _flight,
        } = self;
    }
}

impl Model for Outcome {
    ghost use Rattle.std.specs.Prelude.{List, ℕ};

    ghost Value = { List ℕ };

    ghost view = { λ outcome. outcome.text.items };
}

impl Outcome {
    /// Of a run that has ended, and wrote this.
    pub fn of(alloc: Global, ended: Ended, written: &[u8]) -> Result<Outcome, AllocError> {
        let text = Vec::from_slice(alloc, written)?;
        Ok(Outcome {
            status: ended.status,
            text,
            flight: ended.flight,
        })
    }

    pub fn text(&self) -> &[u8] {
        &self.text
    }

    pub fn status(&self) -> Status {
        self.status
    }

    pub fn flight(&self) -> &Option<Flight> {
        &self.flight
    }

    /// Whether the run has ended so.
    pub fn is(&self, status: Status) -> bool {
        self.status == status
    }

    /// Whether the run has ended so, and wrote this.
    pub fn is_told(&self, status: Status, text: &[u8]) -> bool {
        self.status == status && self.text.as_slice() == text
    }

    /// How often these bytes stand in what was written.
    pub fn count(&self, bytes: &[u8]) -> u64 {
        let text = self.text.as_slice();
        let mut count: u64 = 0;
        for (at, _) in text.iter().enumerate() {
            if text.get(at..).unwrap_or_default().starts_with(bytes) {
                count = count.saturating_add(1);
            }
        }
        count
    }

    /// What stands behind the last of these bytes, up to the end of its line; nothing, where they do not stand.
    pub fn last_behind(&self, bytes: &[u8]) -> &[u8] {
        let text = self.text.as_slice();
        let mut last: &[u8] = b"";
        for (at, _) in text.iter().enumerate() {
            let rest = text.get(at..).unwrap_or_default();
            if rest.starts_with(bytes) {
                last = first_line(rest.get(bytes.len()..).unwrap_or_default());
            }
        }
        last
    }
}

/// The bytes before the first line's end.
fn first_line(text: &[u8]) -> &[u8] {
    for (at, byte) in text.iter().enumerate() {
        if *byte == b'\n' {
            return text.get(..at).unwrap_or_default();
        }
    }
    text
}
