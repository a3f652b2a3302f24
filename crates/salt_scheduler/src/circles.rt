//! Whether units may wait for each other in a circle.

ghost use Rattle.std.specs.Prelude.{◌≡◌, IfOk};
ghost use Rattle.law_states.specs.Readings.{WatchReading, beside_by};
ghost use Rattle.law_states.specs.States.{State};
ghost use Rattle.law_states.specs.Watches.{Watch};
ghost use Rattle.salt_books.specs.Sound.{IsSoundState};
ghost use Rattle.salt_conflicts.specs.Watched.{IsWatch};
ghost use Rattle.salt_scheduler.specs.Calm.{is_calm_behind};

use crate::scheduler::Scheduler;
use salt_conflicts::Watching;
use salt_values::Id;
use std::alloc::AllocError;

/// Whether no circle can have come behind what a unit has done or committed, where it was known that there was none before, or was not.
/// It is quiet if its program, if any, reads from no other than before and gets no lock.
pub fn is_calm_behind(calm: bool, quiet: bool, watch: &Watching) -> bool
    ensures { (w : Watch) → IsWatch watch.now w → result ≡ is_calm_behind calm quiet w.waits }
{
    calm && (quiet || !watch.has_waiting_program())
}

impl Scheduler {
    ghost use Rattle.salt_scheduler.specs.Standing.{StandsForState};

    /// The unit to be given up where units wait for each other in a circle; it is sought where one may have come.
    pub(crate) fn victim(&mut self) -> Result<Option<Id>, AllocError>
        ensures { IfOk result (λ unit. (s : State) (r : WatchReading s.watch) → StandsForState self.old s → IsSoundState s
            → (unit ≡ (beside_by s r).victim) × StandsForState self.new s) }
    {
        if self.calm {
            return Ok(None);
        }
        let victim = self.watch.victim()?;
        self.calm = victim.is_none();
        Ok(victim)
    }
}
