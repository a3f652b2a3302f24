//! A unit's ballot, and when it was written.

ghost use Rattle.salt_net.specs.Ballots.{poll_of};
ghost use Rattle.salt_net.specs.Kept.{since};
ghost use Rattle.std.specs.Prelude.{◌≡◌};

use crate::ballot::Ballot;

/// A unit's ballot, written when the coordinator had started again so many times. Where it has started again since then, what it had
/// not decided is given up, though nothing was written.
#[derive(Clone, Copy)]
pub struct Kept {
    pub ballot: Ballot,
    pub begun: u64,
}

impl Kept {
    /// The ballot after so many restarts of the coordinator.
    pub fn since(&self, restarts: u64) -> Ballot
        ensures { poll_of result ≡ since restarts self.now }
    {
        if self.begun == restarts {
            self.ballot
        } else {
            self.ballot.restarted()
        }
    }
}
