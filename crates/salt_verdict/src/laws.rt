//! What is known judges each law as the trace does.

ghost use Rattle.salt_audit.specs.Formed.{is_formed_by};
ghost use Rattle.salt_audit.specs.Laws.{dishonest};
ghost use Rattle.salt_audit.specs.Retelling.{told};
ghost use Rattle.salt_model.specs.Trace.{Trace};
ghost use Rattle.salt_model.specs.declared.events.Event.{Event};
ghost use Rattle.salt_verdict.specs.After.{IsAfter};
ghost use Rattle.salt_verdict.specs.Ledger.{AreFaithful, HoldsTrace, dishonest_by, unfaithful_by, unfaithful_in};
ghost use Rattle.salt_verdict.specs.declared.ledger.Ledger.{Ledger};
ghost use Rattle.law_states.specs.Overlays.{with_edits};
ghost use Rattle.salt_ast.specs.declared.trees.Statement.{Statement};
ghost use Rattle.salt_ast.specs.declared.trees.TableDef.{TableDef};
ghost use Rattle.salt_model.specs.Statements.{serial};
ghost use Rattle.salt_model.specs.Tables.{Tables};
ghost use Rattle.salt_model.specs.declared.vars.Binding.{Binding};
ghost use Rattle.std.specs.Prelude.{List, true, ◌≡◌};

use law_states::edits_make_the_tables;
use salt_audit::knowledge_goes_on;

/// The units that break honest by what is known before an event that is formed and behind it are those that break it in the trace.
pub fn honest_is_exact()
    ensures { (before after : Ledger) (trace : Trace) (e : Event) → HoldsTrace before trace → is_formed_by trace e ≡ true → HoldsTrace after (told trace e) → dishonest_by before after e ≡ dishonest trace e }
{}

/// Where no open unit was unfaithful before an event, those that are so behind it are among those whose replay it may change.
pub fn changes_tell_the_unfaithful()
    ensures { (l m : Ledger) (e : Event) → AreFaithful l → IsAfter l m e → unfaithful_in m ≡ unfaithful_by e m }
{}

/// What is known behind an event is what the trace with it tells, where what was known before it is what the trace told.
pub fn holding_goes_on()
    ensures { (l m : Ledger) (trace : Trace) (e : Event) → HoldsTrace l trace → is_formed_by trace e ≡ true → IsAfter l m e → HoldsTrace m (told trace e) }
{
    knowledge_goes_on();
}

/// A serial run makes its edits in the tables.
pub fn runs_make_the_tables()
    ensures { (schema : List TableDef) (es : Tables) (vars : List Binding) (sts : List Statement) →
        (serial schema es vars sts).tables ≡ with_edits (serial schema es vars sts).changes.list es }
{
    edits_make_the_tables();
}
