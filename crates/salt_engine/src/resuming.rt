//! A half in memory goes on behind an early opening.

ghost use Rattle.salt_engine.specs.Resuming.{AreCalled, GoesOnBehindEarly};
ghost use Rattle.salt_scheduler.specs.Standing.{StandsForState};
ghost use Rattle.std.specs.Prelude.{IfOk};

use salt_books::{Books, CalledNames};
use salt_conflicts::Watching;
use salt_early::{Restored, restore};
use salt_scheduler::Scheduler;
use salt_values::Cont;
use std::alloc::{AllocError, Global};

/// The names by which unfinished programs were called, as their continuations keep them.
fn names_kept(alloc: Global, conts: &[Cont]) -> Result<CalledNames, AllocError>
    ensures { IfOk result (λ called. AreCalled called conts.now) }
{
    let mut called = CalledNames::new(alloc);
    for cont in conts {
        called.call(cont.base, &cont.program)?;
    }
    Ok(called)
}

/// A half in memory over the books of an opening that has ended early: its programs hide the base tables and read from one another, and
/// go by the names that their continuations keep.
pub fn resume(alloc: Global, books: Books) -> Result<Scheduler, AllocError>
    ensures { IfOk result (λ scheduler. GoesOnBehindEarly books (λ s. StandsForState scheduler s)) }
{
    let called = names_kept(alloc, books.known().conts())?;
    let restored = restore(alloc, books.known())?;
    let Restored {
        locks,
        taken,
        deps,
        named,
    } = restored;
    let watch = Watching::resumed(alloc, locks, taken, deps, named);
    let scheduler = Scheduler::resumed(alloc, books, watch, called);
    Ok(scheduler)
}
