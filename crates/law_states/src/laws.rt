//! The laws, each on a function that does nothing: what an engine keeps, how it goes on with each event of a played trace,
//! and that it tells what comes next.

ghost use Rattle.salt_model.specs.declared.locks.Family.{Family};
ghost use Rattle.law_states.specs.Restoring.{AreKeys, ForgotEach, ReadEach, TakenEach, WroteEach, whole};
ghost use Rattle.salt_ast.specs.declared.trees.Statement.{Statement};
ghost use Rattle.law_states.specs.KeptCover.{KeepsCover, group_of};
ghost use Rattle.law_states.specs.Circles.{BringsNoWait, NoneOnCircle};
ghost use Rattle.law_states.specs.DependencyCalls.{AreSame, HasAbandoned, HasFinished, HasRead, IsCommitted, WroteAll, marked};
ghost use Rattle.law_states.specs.Keeps.{KeepsUnit, KeepsUnits};
ghost use Rattle.law_states.specs.KeptLocks.{AreBelow, KeepsLocks, Numbered, Sooner, clash_in, is_owned_by, numbered_from};
ghost use Rattle.law_states.specs.KeptPrograms.{KeepsNothing, unreleased_after};
ghost use Rattle.law_states.specs.KeptSources.{Dependencies, FinishedLive, IsDue, KeepsDependencies, no_dependencies};
ghost use Rattle.law_states.specs.KeptSources.{ReadsLive, Through, first_of, live_writer};
ghost use Rattle.law_states.specs.KeptWaits.{AreDistinct, AreSources, Asker, IsSettled, asker, clash_owners, served_in, victim_in};
ghost use Rattle.law_states.specs.KeptWaits.{waiting};
ghost use Rattle.law_states.specs.Laws.{DoesAlike, DoesUnder, IsListed, IsSound, LooksUp, is_of_run};
ghost use Rattle.law_states.specs.LockCalls.{HasDropped, HasDroppedAll, HasSalted, HasTaken};
ghost use Rattle.law_states.specs.Members.{Ascends, In, SameMembers};
ghost use Rattle.law_states.specs.Nexts.{asked_next, flight_next, next_turn_of, refusal_of, said_next, turned_next};
ghost use Rattle.law_states.specs.NoneDue.{NoneDue};
ghost use Rattle.law_states.specs.OpenUnits.{OpenUnit, UnitState, change_unit, names_in, unit_named, without_unit};
ghost use Rattle.law_states.specs.Overlays.{AreInOrder, AreRows, Edit, Views, entry_at, row_edited, with_edits};
ghost use Rattle.law_states.specs.PairClosures.{LeadsBack, Pair, all_sources, dependencies_of, due_in, has_pair};
ghost use Rattle.law_states.specs.PlainStates.{IsInTurn, PlainState, PlainWatch, as_state, state_after, state_of, watch_after, watch_of};
ghost use Rattle.law_states.specs.Points.{Ask, Falls, IsIdle, KeepsPoint, TraceStep, Moves, Point, Runs, Say, Turn, point_of, told_by, trace_on};
ghost use Rattle.law_states.specs.Readings.{WatchReading, beside_by, clash_by, items_by, locks_in, under_way_by};
ghost use Rattle.law_states.specs.Rising.{Rising};
ghost use Rattle.law_states.specs.Settling.{to_come, waiters};
ghost use Rattle.law_states.specs.States.{After, Keeps, State, asked_of, started, turned_to};
ghost use Rattle.law_states.specs.Steps.{units_after, units_asked, units_at, units_of, units_turned};
ghost use Rattle.law_states.specs.UnitFacts.{UnitFacts};
ghost use Rattle.law_states.specs.WatchSteps.{DependenciesAfter, DependenciesBy, WatchAfter, WatchBy, base_by, first_by, locks_after, table_after, table_by, waiting_after};
ghost use Rattle.law_states.specs.Watches.{Watch, Watches, empty_watch};
ghost use Rattle.salt_model.specs.After.{reach_now, run_of, tables_after};
ghost use Rattle.salt_model.specs.Kept.{Kept, cont_of};
ghost use Rattle.salt_model.specs.Locks.{clashing, cover_lock, family_of, held, lock_of, owners_of};
ghost use Rattle.salt_model.specs.Next.{flight, next};
ghost use Rattle.salt_model.specs.Phases.{Serving, phase};
ghost use Rattle.salt_model.specs.Programs.{under_way, unreleased};
ghost use Rattle.salt_model.specs.Reads.{sources, to_release};
ghost use Rattle.salt_model.specs.Refusals.{is_busy, refusal};
ghost use Rattle.salt_model.specs.Releasing.{ReadsThrough};
ghost use Rattle.salt_model.specs.Segments.{IsComplete};
ghost use Rattle.salt_model.specs.Tables.{Tables, is_within, place, row_at};
ghost use Rattle.salt_model.specs.Trace.{Asked, Start, Trace, from, start_of, story_of, ◌asks◌, ◌says◌, ◌turns◌};
ghost use Rattle.salt_model.specs.Turns.{next_turn};
ghost use Rattle.salt_model.specs.Units.{is_open, kind_of, open_units, wait_list};
ghost use Rattle.salt_model.specs.Waiting.{WaitUnit, clashing_now, is_on_cycle, next_unblocked, victim};
ghost use Rattle.salt_model.specs.Words.{is_empty};
ghost use Rattle.salt_values.specs.Id.{in_order};
ghost use Rattle.salt_model.specs.declared.events.Answer.{Answer};
ghost use Rattle.salt_model.specs.declared.events.End.{End};
ghost use Rattle.salt_model.specs.declared.events.End.TheVariants.{Branched, Committed};
ghost use Rattle.salt_model.specs.declared.events.Event.{Event};
ghost use Rattle.salt_model.specs.declared.events.Event.TheVariants.{Did, Early, Ended, Finished, Ready, Released};
ghost use Rattle.salt_model.specs.declared.events.Owner.{Owner};
ghost use Rattle.salt_model.specs.declared.events.Owner.TheVariants.{Unit};
ghost use Rattle.salt_model.specs.declared.events.Why.{Why};
ghost use Rattle.salt_model.specs.declared.locks.Lock.{Lock};
ghost use Rattle.salt_model.specs.declared.locks.Mode.{Mode};
ghost use Rattle.salt_model.specs.declared.locks.Reach.{Reach};
ghost use Rattle.salt_model.specs.declared.places.Place.{Place};
ghost use Rattle.salt_ranges.specs.Ranges.{one_key};
ghost use Rattle.salt_values.specs.declared.id.Id.{Id};
ghost use Rattle.salt_values.specs.declared.value.Value.TheVariants.{Int};
ghost use Rattle.salt_values.specs.declared.value.Value.{Value};
ghost use Rattle.salt_model.specs.Shown.{base_items, lock_items};
ghost use Rattle.salt_model.specs.declared.events.Cause.{Cause};
ghost use Rattle.salt_model.specs.declared.events.UnitKind.TheVariants.{Later};
ghost use Rattle.salt_values.specs.declared.cont.Cont.{Cont};
ghost use Rattle.std.specs.List.{filter, remove};
ghost use Rattle.std.specs.Prelude.{IsTrue, List, None, Option, Some, [], false, get_or, length, map, not, pos, set, suc, true, ℕ};
ghost use Rattle.std.specs.Prelude.{◌++◌, ◌<◌, ◌||◌, ◌↔◌, ◌∷◌, ◌≡◌, ◌⊎◌};

/// What the state of units and tables becomes by an event, a line and a turn of `go all`, and what it is at a start.
pub fn units_go_on()
    ensures says { (s : UnitState) (trace : Trace) (e : Event) → KeepsUnits s trace → IsSound (trace says e) →
        KeepsUnits (units_after e s) (trace says e) }
    ensures asks { (s : UnitState) (trace : Trace) (asked : Asked) → KeepsUnits s trace →
        KeepsUnits (units_asked asked s) (trace asks asked) }
    ensures turns { (s : UnitState) (trace : Trace) (b : Id) → KeepsUnits s trace →
        KeepsUnits (units_turned b s) (trace turns b) }
    ensures start { (k : Start) → KeepsUnits (units_at k.kept k.early) (from k) }
{}

/// Each trace that is played has the state that goes along with it, event by event; its locks are in the order taken.
pub fn each_trace_has_its_state()
    ensures units { (trace : Trace) → IsSound trace → KeepsUnits (units_of trace) trace }
    ensures whole { (trace : Trace) → IsSound trace → Keeps (as_state (state_of trace)) trace }
    ensures in_turn { (trace : Trace) → IsInTurn (state_of trace).watch }
{}

/// A failure with tries left leaves the program at its part, with one fewer, and all else of it as it was.
pub fn failures_use_a_try()
    ensures { (s : UnitState) (trace : Trace) (o : OpenUnit) (b : Id) (part n tries : ℕ) (x : Cause) (c : Cont) →
        KeepsUnits s trace → KeepsUnit trace o → IsSound (trace says Ended o.unit (Branched n x)) → o.kind ≡ Later b part →
        cont_of b s.kept ≡ Some c → c.tries ≡ suc tries →
        cont_of b (units_after (Ended o.unit (Branched n x)) s).kept ≡ Some (record c { tries = tries }) }
{}

/// The names of the open units rise, so each stands once.
pub fn names_rise()
    ensures { (s : UnitState) (trace : Trace) → KeepsUnits s trace → IsSound trace → Rising (names_in s.units) }
{}

/// Where names rise, a name stands at one place of the list, and what changes is that place.
pub fn one_place_changes()
    ensures change { (os : List OpenUnit) (n : ℕ) (d : OpenUnit) (f : OpenUnit → OpenUnit) → Rising (names_in os) →
        n < length os → change_unit (get_or os n d).unit f os ≡ set os n (f (get_or os n d)) }
    ensures without { (os : List OpenUnit) (n : ℕ) (d : OpenUnit) → Rising (names_in os) → n < length os →
        without_unit (get_or os n d).unit os ≡ remove os n }
    ensures named { (os : List OpenUnit) (n : ℕ) (d : OpenUnit) → Rising (names_in os) → n < length os →
        unit_named (get_or os n d).unit os ≡ Some (get_or os n d) }
{}

/// Each open unit is in the list.
pub fn open_units_are_listed()
    ensures { (s : UnitState) (trace : Trace) (u : Id) → KeepsUnits s trace → IsSound trace → is_open trace u ≡ true →
        IsListed trace s u }
{}

/// Units are looked up in the state.
pub fn units_are_looked_up()
    ensures { (s : UnitState) (trace : Trace) → KeepsUnits s trace → LooksUp s trace }
{}

/// What a statement of an open unit does, it does on the committed tables under its edits; and the same over
/// each view that has their rows in its reach, and on a list of these. Rows of a reach, from wherever they come, with the
/// unit's edits made in them, are such a view; for a reach of one key that is one look-up.
pub fn statements_are_done_under_edits()
    ensures under { (s : UnitState) (trace : Trace) (o : OpenUnit) (st : Statement) → KeepsUnits s trace →
        KeepsUnit trace o → DoesUnder trace s.kept o st }
    ensures alike { (k : Kept) (o : OpenUnit) (st : Statement) → AreInOrder o.changes → DoesAlike k o st }
    ensures stored { (r : Reach) (ds : List Edit) (es rows : Tables) → AreInOrder ds →
        ((q : Place) → is_within r q ≡ true → row_at q rows ≡ row_at q es) → Views (Some r) ds es (with_edits ds rows) }
    ensures of_one_key { (t : ℕ) (mode : Mode) (k : Value) (ds : List Edit) (es : Tables) →
        AreRows (Some (record { table = t; range = one_key k; mode = mode })) ds es (entry_at (place t k) (row_edited ds es (place t k))) }
{}

/// The tables of a unit's statements, done anew, are the committed ones with its edits made; tables with these
/// rows are those, in whatever way they are made.
pub fn edits_make_the_tables()
    ensures run { (trace : Trace) (u : Id) →
        (run_of u trace).tables ≡ with_edits (run_of u trace).changes.list (tables_after trace) }
    ensures in_order { (trace : Trace) (o : OpenUnit) → KeepsUnit trace o → AreInOrder o.changes }
    ensures rows { (ds : List Edit) (es : Tables) (q : Place) → AreInOrder ds →
        row_at q (with_edits ds es) ≡ row_edited ds es q }
    ensures made { (ds : List Edit) (es now : Tables) → AreInOrder ds → ((q : Place) → row_at q now ≡ row_edited ds es q) →
        now ≡ with_edits ds es }
{}

/// What each event makes of the held locks.
pub fn locks_change()
    ensures { (trace : Trace) (e : Event) → IsSound (trace says e) →
        held (trace says e) ≡ locks_after trace e (held trace) }
{}

/// Lines and turns move no lock.
pub fn lines_move_no_lock()
    ensures asks { (trace : Trace) (asked : Asked) → held (trace asks asked) ≡ held trace }
    ensures turns { (trace : Trace) (b : Id) → held (trace turns b) ≡ held trace }
{}

/// Any list with the held locks as members tells whom a statement clashes with.
pub fn clashes_come_from_kept_locks()
    ensures { (trace : Trace) (ls : List Lock) → SameMembers ls (held trace) → (u : Id) (st : Statement) →
        clashing trace u st ≡ owners_of (clash_in (Unit u) (family_of (kind_of u trace)) (reach_now u trace st) ls) }
{}

/// A table of numbered locks, in any order, goes on with the held ones.
pub fn tables_keep_locks()
    ensures { (trace : Trace) (e : Event) (k : ℕ) (table new : List Numbered) → IsSound (trace says e) →
        KeepsLocks table (held trace) → AreBelow k table → SameMembers new (table_after k trace e table) →
        KeepsLocks new (held (trace says e)) }
{}

/// Its locks are the held ones, and by their numbers each owner's are in the order in which their statements were done.
pub fn tables_tell_locks()
    ensures members { (table : List Numbered) (ls : List Lock) → KeepsLocks table ls →
        SameMembers (map (λ n. n.lock) table) ls }
    ensures shown { (table part : List Numbered) (ls : List Lock) (o : Owner) → KeepsLocks table ls → Ascends Sooner part →
        ((n : Numbered) → In n part ↔ (In n table × (is_owned_by o n.lock ≡ true))) →
        map (λ n. n.lock) part ≡ filter (is_owned_by o) ls }
{}

/// What each event makes of the waiting units: those left go on asking for what they asked for.
pub fn waits_change()
    ensures { (trace : Trace) (e : Event) → IsSound (trace says e) →
        waiting (trace says e) ≡ waiting_after trace e (waiting trace) }
{}

/// No unit waits twice.
pub fn units_wait_once()
    ensures { (trace : Trace) → AreDistinct (wait_list trace) }
{}

/// Lines and turns move no wait.
pub fn lines_move_no_wait()
    ensures asks { (trace : Trace) (asked : Asked) → IsSound trace → waiting (trace asks asked) ≡ waiting trace }
    ensures turns { (trace : Trace) (b : Id) → IsSound trace → waiting (trace turns b) ≡ waiting trace }
{}

/// Whom a waiting unit clashes with, and who is served next, come from the kept locks and waiting units.
pub fn service_comes_from_what_is_kept()
    ensures owners { (trace : Trace) (ls : List Lock) → SameMembers ls (held trace) → (u : Id) →
        clashing_now trace u ≡ clash_owners ls (asker trace u) }
    ensures served { (trace : Trace) (ls : List Lock) → SameMembers ls (held trace) →
        next_unblocked trace ≡ served_in ls (waiting trace) }
{}

/// The victim comes from the kept locks, waiting units, pairs and finished programs.
pub fn victim_comes_from_what_is_kept()
    ensures { (trace : Trace) (d : Dependencies) (ls : List Lock) (sources : Id → List Id) → IsSound trace →
        KeepsDependencies d trace → SameMembers ls (held trace) → AreSources trace d sources →
        victim trace ≡ victim_in d ls (waiting trace) sources }
{}

/// The search finds no victim exactly where no unit waits for itself, and no circle comes but with a new wait, a program as the new
/// owner of a lock that is waited for, or a new pair of programs. So behind any other event none has to be sought where there was
/// none before it. Where none waits, as behind an opening, there is none, whatever pairs an early one begins with.
pub fn circles_come_with_waits()
    ensures found { (x : Watch) (sources : Id → List Id) → ((c b : Id) → In b (sources c) ↔ Through x.dependencies.reads c b) →
        AreDistinct (map (λ (w : Asker). w.unit) x.waits) →
        (victim_in x.dependencies (locks_in x) x.waits sources ≡ None) ↔ NoneOnCircle x }
    ensures stay { (facts : UnitFacts) (e : Event) (old new : Watch) → WatchBy facts e old new → BringsNoWait facts e old →
        NoneOnCircle old → NoneOnCircle new }
    ensures idle { (x : Watch) → x.waits ≡ [] → NoneOnCircle x }
{}

/// When settling has ended each waiting unit clashes, and none lies on a cycle.
pub fn settling_ends_settled()
    ensures { (trace : Trace) → IsSound trace → phase trace ≡ Serving → next trace ≡ None → IsSettled trace }
{}

/// What is kept of writers, pairs and finished programs goes on with each event.
pub fn dependencies_change()
    ensures { (trace : Trace) (e : Event) (old new : Dependencies) → IsSound (trace says e) → KeepsDependencies old trace →
        DependenciesAfter trace e old new → KeepsDependencies new (trace says e) }
{}

/// Lines and turns move no writer, pair or finished program.
pub fn lines_move_no_dependency()
    ensures asks { (trace : Trace) (asked : Asked) (d : Dependencies) → KeepsDependencies d trace →
        KeepsDependencies d (trace asks asked) }
    ensures turns { (trace : Trace) (b : Id) (d : Dependencies) → KeepsDependencies d trace →
        KeepsDependencies d (trace turns b) }
{}

/// The programs to be released are those finished with all that they read from by kept pairs.
pub fn releases_come_from_what_is_kept()
    ensures { (trace : Trace) (d : Dependencies) (bs : List Id) → IsSound trace → KeepsDependencies d trace →
        ((b : Id) → In b bs ↔ IsDue d b) → to_release trace ≡ in_order bs }
{}

/// A program comes to its end once; and one whose first part is open wrote no key last, and no other reads from it.
pub fn programs_finish_once_and_first_parts_are_unseen()
    ensures once { (trace : Trace) (b : Id) → IsSound (trace says Finished b) → FinishedLive trace b → ⊥ }
    ensures unseen { (trace : Trace) (u b : Id) → IsSound trace → is_open trace u ≡ true → first_of u trace ≡ Some b →
        ((p : Place) → live_writer trace p ≡ Some b → ⊥) × ((x : Id) → ReadsLive trace x b → ⊥) }
{}

/// What each event makes of the accepted programs that are not released; by them a trace is busy.
pub fn unreleased_programs_change()
    ensures change { (trace : Trace) (e : Event) → IsSound (trace says e) →
        unreleased (trace says e) ≡ unreleased_after e (unreleased trace) }
    ensures busy { (trace : Trace) → IsSound trace → is_busy trace
        ≡ (not (is_empty (open_units trace)) || not (is_empty (unreleased trace))) }
{}

/// At a Ready no unit is open, and nothing is held, waits, is unreleased or is kept: an engine begins with nothing.
pub fn nothing_is_kept_at_ready()
    ensures { (trace : Trace) → IsSound (trace says Ready) → KeepsNothing (trace says Ready) }
{}

/// At an Early no unit has begun in its boot and none is open, and of locks, waits and sources the cover and the group
/// of the named programs are all that is kept: an engine that is resumed begins with these.
pub fn cover_and_group_are_kept_at_early()
    ensures { (trace : Trace) (bs : List Id) → IsSound (trace says Early bs) → KeepsCover (trace says Early bs) bs }
{}

/// One unit that takes each of these tables whole, and becomes the first program's, leaves the cover; where each named
/// program writes a key of its own, each reads all of them, and then none has written, the group is left and no more.
pub fn restoring_gives_cover_and_group()
    ensures locks { (u b : Id) (f : Family) (ts : List ℕ) (mid new : List Numbered) → TakenEach u f 0 ts [] mid →
        HasSalted u b mid new → SameMembers new (numbered_from 0 (map (cover_lock b) ts)) }
    ensures group { (r : Reach) (key : ℕ → Value) (bs : List Id) (one two new : Dependencies) → AreKeys r key →
        WroteEach r key 0 bs no_dependencies one → ReadEach r bs one two → ForgotEach r key 0 bs two new →
        AreSame (group_of bs) new }
    ensures keys { (t : ℕ) → AreKeys (whole t) (λ i. Int (pos i)) }
{}

/// All of it together: what an engine keeps goes on with each event, line and turn, and begins with nothing at a Ready.
pub fn watches_go_on()
    ensures says { (trace : Trace) (e : Event) (old new : Watch) → IsSound (trace says e) → Watches old trace →
        WatchAfter trace e old new → Watches new (trace says e) }
    ensures asks { (trace : Trace) (asked : Asked) (w : Watch) → IsSound trace → Watches w trace →
        Watches w (trace asks asked) }
    ensures turns { (trace : Trace) (b : Id) (w : Watch) → IsSound trace → Watches w trace → Watches w (trace turns b) }
    ensures begins { (trace : Trace) (n : ℕ) → IsSound (trace says Ready) → Watches (empty_watch n) (trace says Ready) }
{}

/// Sources and due programs of lists of pairs and of finished programs, computed, are those that one comes to.
pub fn pairs_are_closed_by_rounds()
    ensures sources { (pairs : List Pair) (b c : Id) → In c (all_sources pairs b) ↔ Through (has_pair pairs) b c }
    ensures due { (writer : Place → Option Id) (pairs : List Pair) (finished : List Id) (b : Id) →
        In b (due_in pairs finished) ↔ IsDue (dependencies_of writer pairs finished) b }
{}

/// In any graph of waiting units, one lies on a cycle exactly where edges lead back to it.
pub fn rounds_find_cycles()
    ensures { (graph : List WaitUnit) (w : WaitUnit) → In w graph → IsTrue (is_on_cycle graph w) ↔ LeadsBack graph w }
{}

/// The calls on a table of numbered locks make of it what the events do.
pub fn lock_calls_fit()
    ensures take { (facts : UnitFacts) (u : Id) (st : Statement) (a : Answer) (k : ℕ) (r : Reach) (old new : List Numbered) →
        facts.reach ≡ Some r → HasTaken k (lock_of (Unit u) (family_of facts.kind) r) old new → SameMembers new (table_by facts k (Did u st a) old) }
    ensures salt { (facts : UnitFacts) (u b : Id) (n k : ℕ) (old new : List Numbered) → base_by facts ≡ Some b →
        HasSalted u b old new → SameMembers new (table_by facts k (Ended u (Committed n)) old) }
    ensures acid { (facts : UnitFacts) (u : Id) (n k : ℕ) (old new : List Numbered) → base_by facts ≡ None →
        HasDropped (Unit u) old new → SameMembers new (table_by facts k (Ended u (Committed n)) old) }
    ensures ended { (facts : UnitFacts) (u : Id) (end : End) (k : ℕ) (old new : List Numbered) → (IsCommitted end → ⊥) →
        HasDropped (Unit u) old new → SameMembers new (table_by facts k (Ended u end) old) }
    ensures release { (facts : UnitFacts) (bs : List Id) (k : ℕ) (old new : List Numbered) → HasDroppedAll bs old new →
        SameMembers new (table_by facts k (Released bs) old) }
{}

/// The calls on writers, pairs and finished programs make of them what the events do.
pub fn dependency_calls_fit()
    ensures commit { (facts : UnitFacts) (u : Id) (n : ℕ) (old new : Dependencies) →
        WroteAll (base_by facts) (map (λ e. e.0) facts.changes) old new →
        DependenciesBy facts (Ended u (Committed n)) old new }
    ensures read { (facts : UnitFacts) (u b : Id) (st : Statement) (a : Answer) (r : Reach) (old new : Dependencies) →
        base_by facts ≡ Some b → facts.reach ≡ Some r → HasRead b r old new → DependenciesBy facts (Did u st a) old new }
    ensures unread { (facts : UnitFacts) (u : Id) (st : Statement) (a : Answer) (old : Dependencies) →
        (base_by facts ≡ None) ⊎ (facts.reach ≡ None) → DependenciesBy facts (Did u st a) old old }
    ensures abandon { (facts : UnitFacts) (u b : Id) (end : End) (old new : Dependencies) → (IsCommitted end → ⊥) →
        first_by facts ≡ Some b → HasAbandoned b old new → DependenciesBy facts (Ended u end) old new }
{}

/// A finish marks a program, and gives those that are due by the marked ones; it leaves what is kept after their release.
pub fn finishes_fit()
    ensures marks { (facts : UnitFacts) (c : Id) (old : Dependencies) →
        DependenciesBy facts (Finished c) old (marked c old) }
    ensures leaves { (facts : UnitFacts) (c : Id) (bs : List Id) (old new : Dependencies) → HasFinished c bs old new →
        DependenciesBy facts (Released (in_order bs)) (marked c old) new }
    ensures none { (facts : UnitFacts) (c : Id) (old new : Dependencies) → HasFinished c [] old new →
        DependenciesBy facts (Finished c) old new }
{}

/// Between finishes no kept program is due, so all that a finish makes due come to the program that it is of.
pub fn none_is_due_between_finishes()
    ensures wrote { (base : Option Id) (ps : List Place) (old new : Dependencies) → WroteAll base ps old new → NoneDue old →
        NoneDue new }
    ensures read { (base : Id) (r : Reach) (old new : Dependencies) → HasRead base r old new → NoneDue old → NoneDue new }
    ensures abandoned { (base : Id) (old new : Dependencies) → HasAbandoned base old new →
        ((x : Id) → IsTrue (old.reads x base) → ⊥) → (IsTrue (old.finished base) → ⊥) → NoneDue old → NoneDue new }
    ensures finished { (base : Id) (bs : List Id) (old new : Dependencies) → HasFinished base bs old new → NoneDue new }
    ensures comes { (base : Id) (old : Dependencies) → NoneDue old → (b : Id) → IsDue (marked base old) b →
        (Through old.reads b base → ⊥) → ⊥ }
{}

/// What a state becomes by an event, a line and a turn of `go all`, and what it is at a start.
pub fn states_go_on()
    ensures says { (old new : State) (trace : Trace) (e : Event) → Keeps old trace → IsSound (trace says e) →
        After e old new → Keeps new (trace says e) }
    ensures asks { (s : State) (trace : Trace) (asked : Asked) → Keeps s trace → IsSound trace →
        Keeps (asked_of asked s) (trace asks asked) }
    ensures turns { (s : State) (trace : Trace) (b : Id) → Keeps s trace → IsSound trace →
        Keeps (turned_to b s) (trace turns b) }
    ensures start { (k : Start) → Keeps (started k) (from k) }
{}

/// Whom a statement clashes with, what `show` shows, the victim, who is served next, and what is due are told by
/// the state alone, in whatever way it is read.
pub fn states_tell_what_stands_beside()
    ensures clash { (s : State) (trace : Trace) (o : OpenUnit) (st : Statement) → Keeps s trace → IsSound trace →
        KeepsUnit trace o → clashing trace o.unit st ≡ clash_by s o st }
    ensures locks { (s : State) (trace : Trace) (x : WatchReading s.watch) → Keeps s trace → IsSound trace →
        lock_items trace ≡ (items_by s x).locks }
    ensures bases { (s : State) (trace : Trace) (x : WatchReading s.watch) → Keeps s trace → IsSound trace →
        base_items trace ≡ (items_by s x).bases }
    ensures victim { (s : State) (trace : Trace) (x : WatchReading s.watch) → Keeps s trace → IsSound trace →
        victim trace ≡ (beside_by s x).victim }
    ensures served { (s : State) (trace : Trace) (x : WatchReading s.watch) → Keeps s trace → IsSound trace →
        next_unblocked trace ≡ (beside_by s x).served }
    ensures due { (s : State) (trace : Trace) (x : WatchReading s.watch) → Keeps s trace → IsSound trace →
        to_release trace ≡ (beside_by s x).due }
    ensures under_way { (s : State) (trace : Trace) → Keeps s trace → IsSound trace → under_way trace ≡ under_way_by s }
{}

/// The refusal of a line, and what comes next, are told by states alone, in whatever way these are read.
pub fn states_tell_what_comes_next()
    ensures refuses { (s : State) (trace : Trace) (asked : Asked) → Keeps s trace → IsSound trace →
        refusal trace asked ≡ refusal_of s asked }
    ensures asked { (s : State) (trace : Trace) (asked : Asked) (x : WatchReading s.watch) → Keeps s trace →
        IsSound (trace asks asked) → next (trace asks asked) ≡ asked_next s x asked }
    ensures turn { (s : State) (trace : Trace) → Keeps s trace → next_turn trace ≡ next_turn_of s }
    ensures turned { (s : State) (trace : Trace) (b : Id) (x : WatchReading s.watch) → Keeps s trace → IsSound (trace turns b) →
        next (trace turns b) ≡ turned_next s x b }
    ensures said { (old new : State) (trace : Trace) (e : Event) (x : WatchReading new.watch) → Keeps old trace →
        IsSound (trace says e) → After e old new → next (trace says e) ≡ said_next e old new x (flight trace) }
    ensures flight { (trace : Trace) (e : Event) →
        flight (trace says e) ≡ flight_next e (flight trace) (next (trace says e)) }
{}

/// Moves of a point are moves of its trace; where the point is idle, nothing is missing of the trace's last segment.
pub fn points_go_on()
    ensures runs { (ms : List TraceStep) (old new : Point) (trace : Trace) → KeepsPoint old trace → IsSound trace →
        Runs old ms new → KeepsPoint new (trace_on trace ms) × IsSound (trace_on trace ms) }
    ensures falls { (why : Why) (old new : Point) (trace : Trace) → KeepsPoint old trace → IsSound trace →
        Falls why old new → KeepsPoint new (trace says Event.Down why) × IsSound (trace says Event.Down why) }
    ensures idle { (p : Point) (trace : Trace) → KeepsPoint p trace → IsIdle p → IsComplete trace }
    ensures one_more { (ms : List TraceStep) (m : TraceStep) (old mid new : Point) → Runs old ms mid → Moves m mid new →
        Runs old (ms ++ m ∷ []) new }
    ensures story { (ms : List TraceStep) (trace : Trace) → story_of (trace_on trace ms) ≡ story_of trace ++ told_by ms }
    ensures start { (ms : List TraceStep) (trace : Trace) → start_of (trace_on trace ms) ≡ start_of trace }
{}

/// Each trace that is played moves its own point: each line, turn of `go all`, event and stop of a run that serves is a
/// move. So the moves of points leave none out.
pub fn traces_move_their_points()
    ensures keeps { (trace : Trace) → IsSound trace → KeepsPoint (point_of trace) trace }
    ensures says { (trace : Trace) (e : Event) → IsSound (trace says e) → is_of_run e ≡ false →
        Moves (Say e) (point_of trace) (point_of (trace says e)) }
    ensures asks { (trace : Trace) (asked : Asked) → IsSound (trace asks asked) →
        Moves (Ask asked) (point_of trace) (point_of (trace asks asked)) }
    ensures turns { (trace : Trace) (b : Id) → IsSound (trace turns b) →
        Moves (Turn b) (point_of trace) (point_of (trace turns b)) }
    ensures falls { (trace : Trace) (why : Why) → IsSound (trace says Event.Down why) → phase trace ≡ Serving →
        Falls why (point_of trace) (point_of (trace says Event.Down why)) }
{}

/// While serving, what is still to come falls with each event.
pub fn settling_ends()
    ensures { (e : Event) (old new : State) (x : WatchReading new.watch) (flight : Option Event) → is_of_run e ≡ false →
        new.units.phase ≡ Serving → After e old new →
        to_come (waiters new) (said_next e old new x flight) < to_come (waiters old) (Some e) }
{}

/// The state by lists, computed, goes on as states do; its locks stay in turn, and then its closures in rounds are a reading.
pub fn plain_states_go_on()
    ensures says { (e : Event) (p : PlainState) → After e (as_state p) (as_state (state_after e p)) }
    ensures in_turn { (facts : UnitFacts) (e : Event) (w : PlainWatch) → IsInTurn w → IsInTurn (watch_after facts e w) }
    ensures reads { (w : PlainWatch) → IsInTurn w → WatchReading (watch_of w) }
{}
