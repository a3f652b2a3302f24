//! What is promised of every story.

ghost use Rattle.salt_loop.specs.Loading.{asked_by_load};
ghost use Rattle.salt_model.specs.Kept.{WellKept};
ghost use Rattle.salt_model.specs.Lines.{AskInOrder};
ghost use Rattle.salt_model.specs.Played.{IsPlayed};
ghost use Rattle.salt_model.specs.Trace.{Trace, start_of};
ghost use Rattle.salt_promise.specs.Doing.{IsFrontOf};
ghost use Rattle.salt_promise.specs.Promises.{Promises};
ghost use Rattle.salt_run.specs.Running.{DoTheirRests};
ghost use Rattle.std.specs.Prelude.{List, ℕ};

use law_decisions::{played_does_its_rests, read_lines_are_spelled};
use law_definitions::definitions_are_read;
use law_early::{held_back_is_hidden, turns_are_given};
use law_story::{
    held_locks_stand_together, played_is_continued, played_is_declared, played_is_honest,
    played_is_kept, played_is_salted, played_is_whole, played_releases_exactly,
};

/// Each trace that is played from what may be kept keeps every promise.
pub fn played_keeps_promises()
    ensures { (trace : Trace) → IsPlayed trace → WellKept (start_of trace).kept → Promises trace }
{
    played_is_honest();
    played_is_salted();
    played_is_whole();
    played_releases_exactly();
    played_is_continued();
    played_is_kept();
    played_is_declared();
    held_locks_stand_together();
    held_back_is_hidden();
    turns_are_given();
}

/// In each opening of a run no more statements are told than the programs that it found had left.
pub fn openings_do_their_rests()
    ensures script { (texts : List (List ℕ)) → DoTheirRests (AskInOrder texts) }
    ensures load { (calls : ℕ) → DoTheirRests (λ lines. IsFrontOf lines (asked_by_load calls)) }
{
    definitions_are_read();
    played_does_its_rests();
    read_lines_are_spelled();
}
