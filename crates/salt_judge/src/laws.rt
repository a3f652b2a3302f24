//! What is known judges salted and whole as the trace does.

ghost use Rattle.salt_audit.specs.Formed.{is_formed_by};
ghost use Rattle.salt_audit.specs.Laws.{unsalted, unwhole};
ghost use Rattle.salt_audit.specs.Retelling.{told};
ghost use Rattle.salt_judge.specs.Meetings.{HoldsMeetings, IsMetAfter, unwhole_by};
ghost use Rattle.salt_judge.specs.ReadAfter.{IsReadAfter};
ghost use Rattle.salt_judge.specs.Reads.{HoldsReads, unsalted_by};
ghost use Rattle.salt_audit.specs.Standing.{is_formed_at};
ghost use Rattle.salt_judge.specs.Searching.{AreSettled, IsLinked};
ghost use Rattle.salt_values.specs.declared.id.Id.{Id};
ghost use Rattle.salt_verdict.specs.After.{IsAfter};
ghost use Rattle.salt_judge.specs.declared.met.Meetings.{Meetings};
ghost use Rattle.salt_judge.specs.declared.reads.Reads.{Reads};
ghost use Rattle.salt_model.specs.Trace.{Trace};
ghost use Rattle.salt_model.specs.declared.events.Event.{Event};
ghost use Rattle.salt_verdict.specs.Ledger.{HoldsTrace};
ghost use Rattle.salt_verdict.specs.declared.ledger.Ledger.{Ledger};
ghost use Rattle.std.specs.BTreeMap.{BTreeMap};
ghost use Rattle.std.specs.Prelude.{Bool, true, ◌≡◌};

/// The units that break salted by what is known behind an event are those that break it in the trace with it.
pub fn salted_is_exact()
    ensures linked { (l : Ledger) (r : Reads) (trace : Trace) → HoldsTrace l trace → HoldsReads r trace → IsLinked l r }
    ensures exact { (l : Ledger) (r : Reads) (trace : Trace) (e : Event) → HoldsTrace l (told trace e) → HoldsReads r (told trace e) → unsalted_by l r e ≡ unsalted trace e }
{}

/// Units that are settled stay so behind an event that may come.
pub fn settling_goes_on()
    ensures { (l m : Ledger) (r s : Reads) (e : Event) → is_formed_at l.state e ≡ true → IsAfter l m e → IsReadAfter l r s e
        → (settled : BTreeMap Id Bool) → AreSettled l r settled → AreSettled m s settled }
{}

/// What is known of who read from whom is, behind an event, what the trace with it tells.
pub fn reading_goes_on()
    ensures { (l : Ledger) (r s : Reads) (trace : Trace) (e : Event) → HoldsTrace l trace → HoldsReads r trace → is_formed_by trace e ≡ true → IsReadAfter l r s e → HoldsReads s (told trace e) }
{}

/// The units that break whole by what is known behind an event are those that break it in the trace with it.
pub fn whole_is_exact()
    ensures { (m : Meetings) (trace : Trace) (e : Event) → HoldsMeetings m (told trace e) → unwhole_by m ≡ unwhole trace e }
{}

/// What is known of who met what is, behind an event, what the trace with it tells.
pub fn meeting_goes_on()
    ensures { (l : Ledger) (s : Reads) (m n : Meetings) (trace : Trace) (e : Event) → HoldsTrace l trace → HoldsReads s (told trace e) → HoldsMeetings m trace
        → is_formed_by trace e ≡ true → IsMetAfter l s m n e → HoldsMeetings n (told trace e) }
{}
