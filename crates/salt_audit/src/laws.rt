//! What holds of stories that are judged.

ghost use Rattle.std.specs.Prelude.{◌+◌, ◌++◌, ◌∷◌, ◌≡◌, ◌⊎◌, [], List, if◌then◌else◌, length, true, ℕ};
ghost use Rattle.salt_audit.specs.Formed.{is_formed_by};
ghost use Rattle.salt_audit.specs.Knowing.{Knows};
ghost use Rattle.salt_audit.specs.Laws.{fails_amiss, replays};
ghost use Rattle.salt_audit.specs.Replaying.{is_amiss, is_of_unit, is_replay};
ghost use Rattle.salt_audit.specs.Retelling.{retold, told, told_on};
ghost use Rattle.salt_audit.specs.Standing.{is_formed_at};
ghost use Rattle.salt_audit.specs.Telling.{IsBehind};
ghost use Rattle.salt_audit.specs.declared.state.State.{State};
ghost use Rattle.salt_audit.specs.Stories.{IsFrontOf, then_on};
ghost use Rattle.salt_audit.specs.Transcripts.{ArePrintableOn, IsVerdict, tables_told, text_on};
ghost use Rattle.salt_audit.specs.declared.verdict.Verdict.{Verdict};
ghost use Rattle.salt_audit.specs.Verdicts.{found_in, found_on, sound};
ghost use Rattle.salt_model.specs.Naming.{IsNaming};
ghost use Rattle.salt_model.specs.After.{kept, tables_after, vars_of};
ghost use Rattle.salt_model.specs.Kept.{schema_of};
ghost use Rattle.salt_model.specs.Trace.{Trace};
ghost use Rattle.salt_model.specs.Units.{answers_of, done_of};
ghost use Rattle.salt_values.specs.declared.id.Id.{Id};
ghost use Rattle.salt_model.specs.declared.events.Event.{Event};

use law_definitions::definitions_are_read;
use law_states::edits_make_the_tables;
use law_texts::{lines_of_event, one_event, tables_are_named};

/// What is found of more events is what was found before, unless that is nothing; then it is what is found of those behind.
pub fn findings_grow()
    ensures { (as_ bs : List Event) → found_in (as_ ++ bs) ≡ then_on (found_in as_) (found_on (1 + length as_) (told_on (retold []) as_) bs) }
{}

/// The tables that a sound story defines have names, each another.
pub fn sound_stories_name_tables()
    ensures { (story : List Event) → found_in story ≡ sound → IsNaming (tables_told story) }
{
    definitions_are_read();
    tables_are_named();
}

/// So do those of a formed story, event by event.
pub fn formed_events_name_tables()
    ensures none { IsNaming (tables_told []) }
    ensures more { (story : List Event) (e : Event) → IsNaming (tables_told story) → is_formed_by (retold story) e ≡ true → IsNaming (tables_told (story ++ e ∷ [])) }
{
    definitions_are_read();
    tables_are_named();
}

/// Of two printable stories that one text begins with, one is a front of the other, where either is sound.
pub fn stories_agree()
    ensures { (as_ bs : List Event) (p q : List ℕ) → ArePrintableOn (retold []) as_ → ArePrintableOn (retold []) bs → found_in as_ ≡ sound
        → text_on (retold []) as_ ++ p ≡ text_on (retold []) bs ++ q → IsFrontOf as_ bs ⊎ IsFrontOf bs as_ }
{
    definitions_are_read();
    tables_are_named();
    one_event();
}

/// No bytes have two verdicts.
pub fn one_verdict()
    ensures { (bytes : List ℕ) (v w : Verdict) → IsVerdict bytes v → IsVerdict bytes w → v ≡ w }
{
    definitions_are_read();
    tables_are_named();
    one_event();
    lines_of_event();
}

/// A state that knows what a trace tells judges the next event as the trace does.
pub fn judging_is_exact()
    ensures { (s : State) (trace : Trace) (e : Event) → Knows s trace → is_formed_at s e ≡ is_formed_by trace e }
{}

/// A state behind an event that is formed knows what the trace with it tells.
pub fn knowledge_goes_on()
    ensures { (s t : State) (trace : Trace) (e : Event) → Knows s trace → is_formed_by trace e ≡ true → IsBehind s t e → Knows t (told trace e) }
{}

/// A unit's answers are those of a replay exactly where doing its statements under its own edits, over the committed tables, gives them.
pub fn replaying_is_exact()
    ensures replays { (trace : Trace) (u : Id) → is_replay (schema_of (kept trace)) (tables_after trace) [] (vars_of u trace) (done_of u trace) (answers_of u trace)
        ≡ replays trace u }
    ensures amiss { (trace : Trace) (u : Id) (e : Event) → is_of_unit u e ≡ true → fails_amiss trace e ≡ (if is_amiss e (answers_of u trace) then u ∷ [] else []) }
{
    edits_make_the_tables();
}
