//! The laws, each on a function that does nothing.

ghost use Rattle.salt_ast.specs.ProgramTexts.{program_text};
ghost use Rattle.salt_ast.specs.Texts.{table_text};
ghost use Rattle.salt_ast.specs.declared.lines.Line.{Line};
ghost use Rattle.salt_ast.specs.declared.lines.Line.TheVariants.{Program, Table};
ghost use Rattle.salt_ast.specs.declared.programs.ProgramDef.{ProgramDef};
ghost use Rattle.salt_ast.specs.declared.trees.TableDef.{TableDef};
ghost use Rattle.salt_bytes.specs.declared.moves.Move.{Move};
ghost use Rattle.law_states.specs.Keeps.{KeepsUnits};
ghost use Rattle.law_states.specs.Laws.{IsSound, is_of_run};
ghost use Rattle.law_states.specs.OpenUnits.{OpenUnit, UnitState, unit_named};
ghost use Rattle.law_states.specs.Overlays.{edits_of};
ghost use Rattle.law_states.specs.Steps.{units_after};
ghost use Rattle.law_states.specs.Told.{next_decision_number};
ghost use Rattle.salt_model.specs.Rests.{DoesItsRests};
ghost use Rattle.salt_model.specs.Everywhere.{Always};
ghost use Rattle.salt_model.specs.Kept.{Kept, OfProgram, OfTable, conts_branched, conts_committed, nothing_kept, programs_of, schema_of};
ghost use Rattle.salt_model.specs.Lines.{AskInOrder, Asks};
ghost use Rattle.salt_model.specs.Next.{is_decision, next};
ghost use Rattle.salt_model.specs.Played.{IsPlayed};
ghost use Rattle.salt_model.specs.Printable.{IsSpelledProgram, IsSpelledTable};
ghost use Rattle.salt_model.specs.Stops.{is_just_opened};
ghost use Rattle.salt_model.specs.Trace.{Asked, Trace, Tree, lines_asked, start_of, ◌says◌};
ghost use Rattle.salt_model.specs.Words.{Every};
ghost use Rattle.salt_model.specs.declared.events.Cause.{Cause};
ghost use Rattle.salt_model.specs.declared.events.End.{End};
ghost use Rattle.salt_model.specs.declared.events.End.TheVariants.{Branched, Committed};
ghost use Rattle.salt_model.specs.declared.events.Event.{Event};
ghost use Rattle.salt_model.specs.declared.events.Event.TheVariants.{Down, Ended, Opened};
ghost use Rattle.salt_model.specs.declared.events.Why.{Why};
ghost use Rattle.salt_program.specs.Refusals.{parts_in, program_refusal};
ghost use Rattle.salt_schema.specs.Refusals.{table_refusal};
ghost use Rattle.law_decisions.specs.Defining.{MayBeDefined};
ghost use Rattle.law_decisions.specs.Ending.{EndsNext, MayEnd};
ghost use Rattle.law_decisions.specs.Naming.{AreNamedSo, IsToCome};
ghost use Rattle.law_decisions.specs.Spelled.{IsSpelledAsked, IsSpelledLine};
ghost use Rattle.salt_stands.specs.OpenConts.{make_move};
ghost use Rattle.salt_storage.specs.Storing.{IsSoundKept, booted};
ghost use Rattle.law_types.specs.Played.{HasKey};
ghost use Rattle.salt_values.specs.Id.{is_same_id};
ghost use Rattle.salt_values.specs.declared.change.Change.{Change};
ghost use Rattle.salt_values.specs.declared.cont.Cont.{Cont};
ghost use Rattle.salt_values.specs.declared.id.Id.{Id};
ghost use Rattle.std.specs.Prelude.{List, None, Some, [], false, length, true, ℕ, ◌<◌, ◌^◌, ◌≡◌, ◌≤◌};

use law_definitions::definitions_are_read;
use law_openings::openings_do_their_rests;
use law_states::{edits_make_the_tables, names_rise, units_go_on};
use law_story::kept_stays_well_kept;
use law_types::{
    definitions_keep_types, played_is_typed, spelled_tables_have_keys, states_are_of_their_types,
};
use salt_parse::{row_program, row_table};

/// Nothing kept may be kept, and so may what is kept under a later boot.
pub fn starts_may_be_kept()
    ensures nothing { IsSoundKept nothing_kept }
    ensures booted { (k : Kept) → IsSoundKept k → IsSoundKept (booted k) }
    ensures later { (k : Kept) (boot : ℕ) → k.boot ≤ boot → IsSoundKept k → IsSoundKept (record k { boot = boot }) }
{
    definitions_keep_types();
}

/// A commit or a branch that comes next in a played trace may be decided over what is kept there, by the move of its program, and
/// leaves what may be kept.
pub fn decided_ends_may_be_kept()
    ensures commit { (s : UnitState) (trace : Trace) (o : OpenUnit) (cs : List Change) (m : Move) (conts : List Cont) →
        EndsNext s trace o (Committed (next_decision_number s)) → edits_of cs ≡ o.changes → make_move s.kept.conts m ≡ Some conts →
        conts ≡ conts_committed s.kept (next_decision_number s) o.kind o.vars → MayEnd s o (Committed (next_decision_number s)) cs m conts }
    ensures branch { (s : UnitState) (trace : Trace) (o : OpenUnit) (cause : Cause) (m : Move) (conts : List Cont) →
        EndsNext s trace o (Branched (next_decision_number s) cause) → make_move s.kept.conts m ≡ Some conts →
        conts ≡ conts_branched s.kept o.kind → MayEnd s o (Branched (next_decision_number s) cause) [] m conts }
{
    edits_make_the_tables();
    kept_stays_well_kept();
    states_are_of_their_types();
    units_go_on();
}

/// A definition that a text spells and that is not refused under what may be kept may be made there, by its canonical text.
pub fn definitions_may_be_kept()
    ensures table { (s : UnitState) (d : TableDef) → IsSoundKept s.kept → s.line ≡ Table d → IsSpelledTable d →
        table_refusal (schema_of s.kept) d ≡ None → MayBeDefined s (table_text d) (OfTable d) }
    ensures program { (s : UnitState) (p : ProgramDef) → IsSoundKept s.kept → s.line ≡ Program p → IsSpelledProgram p →
        program_refusal (schema_of s.kept) (programs_of s.kept) p ≡ None → MayBeDefined s (program_text p) (OfProgram p) }
{
    definitions_are_read();
    definitions_keep_types();
    spelled_tables_have_keys();
}

/// What lines of bytes ask to define texts spell, and no limit is passed: tables have keys, and programs few parts.
pub fn read_lines_are_spelled()
    ensures one { (text : List ℕ) (asked : Asked) → Asks text asked → IsSpelledAsked asked }
    ensures all { (texts : List (List ℕ)) (lines : List Asked) → AskInOrder texts lines → Every IsSpelledAsked lines }
    ensures keys { (line : Line) → IsSpelledLine line → HasKey (Tree line) }
    ensures parts { (p : ProgramDef) → IsSpelledProgram p → length (parts_in p.body) < 2 ^ 32 }
{
    row_program();
    row_table();
    spelled_tables_have_keys();
}

/// In each opening of a trace that is played from what may be kept, over lines whose definitions some text spells, no more statements are
/// told than the programs that it found had left.
pub fn played_does_its_rests()
    ensures { (trace : Trace) → IsPlayed trace → IsSoundKept (start_of trace).kept → Every IsSpelledAsked (lines_asked trace) →
        Always DoesItsRests trace }
{
    openings_do_their_rests();
    played_is_typed();
    read_lines_are_spelled();
}

/// The open units of a played trace are of this boot or earlier ones, and a unit that is decided next is of this boot, unless the
/// decision was in flight. Their numbers are those of units that have begun, and their names rise.
pub fn units_of_the_boot_are_named_so()
    ensures open_units { (s : UnitState) (trace : Trace) → KeepsUnits s trace → IsSound trace → AreNamedSo s }
    ensures decided { (s : UnitState) (trace : Trace) (u : Id) (end : End) → KeepsUnits s trace → IsSound trace →
        next trace ≡ Some (Ended u end) → is_decision (Ended u end) ≡ true → is_just_opened trace ≡ false → u.boot ≡ s.kept.boot }
{
    names_rise();
}

/// A unit that may be decided behind an event might be before it, and one that has ended may be no more. Behind an Opened those of
/// its boot may be, and no others.
pub fn units_are_decided_once()
    ensures before { (s : UnitState) (trace : Trace) (e : Event) (u : Id) → KeepsUnits s trace → IsSound (trace says e) →
        is_of_run e ≡ false → IsToCome (units_after e s) u → IsToCome s u }
    ensures ended { (s : UnitState) (trace : Trace) (v : Id) (end : End) (u : Id) → KeepsUnits s trace →
        IsSound (trace says Ended v end) → IsToCome (units_after (Ended v end) s) u → is_same_id u v ≡ false }
    ensures opened { (s : UnitState) (boot n : ℕ) (u : Id) → IsToCome (units_after (Opened boot n) s) u → u.boot ≡ boot }
    ensures now { (s : UnitState) (trace : Trace) (o : OpenUnit) (end : End) → KeepsUnits s trace → IsSound trace →
        unit_named o.unit s.units ≡ Some o → next trace ≡ Some (Ended o.unit end) → is_decision (Ended o.unit end) ≡ true →
        is_just_opened trace ≡ false → IsToCome s o.unit }
{
    units_of_the_boot_are_named_so();
}

/// A decision in flight that is told behind a fall and an Opened leaves what it would have left before, under the later boot.
pub fn flights_leave_the_same()
    ensures fallen { (s : UnitState) (e : Event) (why : Why) → is_decision e ≡ true →
        (units_after e (units_after (Down why) s)).kept ≡ (units_after e s).kept }
    ensures opened { (s : UnitState) (e : Event) (boot n : ℕ) → is_decision e ≡ true →
        (units_after e (units_after (Opened boot n) s)).kept ≡ (let kept = (units_after e s).kept in record kept { boot = boot }) }
{}
