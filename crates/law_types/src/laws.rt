//! The laws, each on a function that does nothing.

ghost use Rattle.salt_ast.specs.Judgement.{Kind, bindings, expr_kind, may_be_null, statement_fault, table_fault, takes};
ghost use Rattle.salt_ast.specs.Paths.{Position, next_on_commit, next_on_failure};
ghost use Rattle.salt_ast.specs.ProgramJudgement.{are_arguments, program_fault, program_scope};
ghost use Rattle.salt_ast.specs.Spelling.{SpellsTable};
ghost use Rattle.salt_ast.specs.declared.programs.ProgramDef.{ProgramDef};
ghost use Rattle.salt_ast.specs.declared.trees.Expr.{Expr};
ghost use Rattle.salt_ast.specs.declared.trees.Field.{Field};
ghost use Rattle.salt_ast.specs.declared.trees.Scope.{Scope};
ghost use Rattle.salt_ast.specs.declared.trees.Statement.{Statement};
ghost use Rattle.salt_ast.specs.declared.trees.TableDef.{TableDef};
ghost use Rattle.salt_stands.specs.Fitting.{are_of_columns, definitions_reading, is_of_column, kept_in, tables_defined};
ghost use Rattle.law_states.specs.Keeps.{KeepsUnits};
ghost use Rattle.law_states.specs.Laws.{IsSound};
ghost use Rattle.law_states.specs.OpenUnits.{UnitState};
ghost use Rattle.law_states.specs.Steps.{units_after};
ghost use Rattle.salt_model.specs.After.{branched, committed};
ghost use Rattle.salt_model.specs.Ends.{kept_with};
ghost use Rattle.salt_model.specs.Eval.{eval, named_values, value_of};
ghost use Rattle.salt_model.specs.Everywhere.{Each};
ghost use Rattle.salt_model.specs.Kept.{Definition, Kept, OfProgram, OfTable, WellKept, block_of_kind, cont_of, parts_of};
ghost use Rattle.salt_model.specs.Kept.{kept_program, nothing_kept, programs_of, schema_of, values_kept, vars_of_kind};
ghost use Rattle.salt_model.specs.Lines.{AskInOrder};
ghost use Rattle.salt_model.specs.Next.{flight};
ghost use Rattle.salt_model.specs.Played.{IsPlayed};
ghost use Rattle.salt_model.specs.Statements.{UnitRun, outcome_of, serial};
ghost use Rattle.salt_model.specs.Tables.{Edits, Tables, changed_at, put_changes, with_changes};
ghost use Rattle.salt_model.specs.Trace.{Asked, Trace, lines_asked, start_of, ◌says◌};
ghost use Rattle.salt_model.specs.Words.{Every};
ghost use Rattle.salt_model.specs.declared.events.Event.{Event};
ghost use Rattle.salt_model.specs.declared.events.UnitKind.{UnitKind};
ghost use Rattle.salt_model.specs.declared.vars.Binding.{Binding};
ghost use Rattle.salt_stands.specs.Coordinator.{Coordinator};
ghost use Rattle.salt_stands.specs.Partition.{is_sound_change, part_of_key};
ghost use Rattle.salt_stands.specs.Stands.{Found, stands_of};
ghost use Rattle.law_types.specs.Played.{HasKey, IsJudgedEvent, IsTypedAt};
ghost use Rattle.law_types.specs.States.{AreOfTheirTypes};
ghost use Rattle.law_types.specs.Typed.{AreApart, AreChangesOf, AreEditsOf, AreRowsOf, AreVariables, FitsAt, IsContOf, IsJudgedFor, IsKindFor};
ghost use Rattle.law_types.specs.Typed.{IsProperProgram, IsProperTable, IsTyped, IsTypedDone, IsTypedRun, has_key, is_datum_of, scope_of_kind};
ghost use Rattle.salt_values.specs.declared.change.Change.{Change};
ghost use Rattle.salt_values.specs.declared.cont.Cont.{Cont};
ghost use Rattle.salt_values.specs.declared.id.Id.{Id};
ghost use Rattle.salt_place.specs.declared.placement.Shape.{Shape};
ghost use Rattle.salt_values.specs.declared.value.Value.{Value};
ghost use Rattle.std.specs.List.{list_all};
ghost use Rattle.std.specs.Prelude.{IfOk, IfSome, List, None, Option, Some, [], true, ℕ, ◌++◌, ◌∷◌, ◌≡◌};

use law_states::units_go_on;

/// An expression that is judged to be of a kind gives a value or a truth value of this kind, or a cause; NULL only where it may.
/// What a column takes gives a value of the column, or a cause.
pub fn expressions_give_their_kinds()
    ensures kinds { (columns variables : List Field) (row : List Value) (vars : List Binding) (e : Expr) (k : Kind) →
        are_of_columns columns row ≡ true → AreVariables variables vars → expr_kind columns variables e ≡ Some k →
        IfOk (eval (record { columns = named_values columns row; vars = vars }) e) (λ d. is_datum_of (may_be_null columns e) k d ≡ true) }
    ensures columns { (columns variables : List Field) (row : List Value) (vars : List Binding) (f : Field) (e : Expr) →
        are_of_columns columns row ≡ true → AreVariables variables vars → takes columns variables f e ≡ true →
        IfOk (value_of (record { columns = named_values columns row; vars = vars }) e) (λ v. is_of_column f v ≡ true) }
{}

/// A statement that is not refused, done on rows that fit and with variables of its scope, makes changes that fit and leaves
/// variables of its scope; so do statements one after another, and their changes fit the tables that they make.
pub fn statements_keep_types()
    ensures one { (schema : List TableDef) (scope : Scope) (es : Tables) (vars : List Binding) (st : Statement) →
        Every IsProperTable schema → AreApart (bindings scope) → statement_fault schema scope st ≡ None →
        AreRowsOf schema es → AreVariables (bindings scope) vars → IsTypedDone schema (bindings scope) (outcome_of schema es vars st) }
    ensures all { (schema : List TableDef) (scope : Scope) (es : Tables) (vars : List Binding) (sts : List Statement) →
        Every IsProperTable schema → AreApart (bindings scope) → Every (λ (st : Statement). statement_fault schema scope st ≡ None) sts →
        AreRowsOf schema es → AreVariables (bindings scope) vars → IsTypedRun schema (bindings scope) (serial schema es vars sts) }
{}

/// Tables with changes that fit have rows that fit, and edits with them still fit.
pub fn changes_keep_rows()
    ensures rows { (schema : List TableDef) (cs : List Change) (es : Tables) → AreChangesOf schema cs → AreRowsOf schema es →
        AreRowsOf schema (with_changes cs es) }
    ensures edits { (schema : List TableDef) (cs : List Change) (ds : Edits) → AreChangesOf schema cs → AreEditsOf schema ds.list →
        AreEditsOf schema (put_changes cs ds).list }
{}

/// A statement that is not refused is not refused when one table more is defined.
pub fn judged_statements_stay_judged()
    ensures { (schema : List TableDef) (scope : Scope) (d : TableDef) (st : Statement) → statement_fault schema scope st ≡ None →
        statement_fault (schema ++ d ∷ []) scope st ≡ None }
{}

/// The key of a table that bytes spell may not be NULL.
pub fn spelled_tables_have_keys()
    ensures { (bytes : List ℕ) (d : TableDef) → SpellsTable bytes d → has_key d.columns ≡ true }
{}

/// What is kept fits its definitions with one more that is not refused; nothing kept does.
pub fn definitions_keep_types()
    ensures nothing { IsTyped nothing_kept }
    ensures table { (k : Kept) (d : TableDef) → IsTyped k → table_fault (schema_of k) d ≡ None → has_key d.columns ≡ true →
        IsTyped (record k { definitions = k.definitions ++ OfTable d ∷ [] }) }
    ensures program { (k : Kept) (p : ProgramDef) → IsTyped k → program_fault (schema_of k) (programs_of k) p ≡ None →
        IsTyped (record k { definitions = k.definitions ++ OfProgram p ∷ [] }) }
{}

/// A unit begins with variables of its program, and none of its program's or part's statements is refused.
pub fn units_begin_typed()
    ensures vars { (k : Kept) (u : UnitKind) → IsTyped k → IsKindFor k u → AreVariables (bindings (scope_of_kind k u)) (vars_of_kind k u) }
    ensures apart { (k : Kept) (u : UnitKind) → IsTyped k → AreApart (bindings (scope_of_kind k u)) }
    ensures judged { (k : Kept) (u : UnitKind) → IsTyped k → IfSome (block_of_kind k u) (Every (IsJudgedFor k u)) }
{}

/// What is kept behind the commit of a unit, whose statements were of their types, or behind its branch fits its definitions.
pub fn ends_keep_types()
    ensures commit { (k : Kept) (n : ℕ) (u : UnitKind) (run : UnitRun) → IsTyped k → IsKindFor k u →
        IsTypedRun (schema_of k) (bindings (scope_of_kind k u)) run → IsTyped (committed k n (Some u) run) }
    ensures branch { (k : Kept) (n : ℕ) (u : UnitKind) → IsTyped k → IsKindFor k u → IsTyped (branched k n (Some u)) }
{}

/// The continuation to which a unit's end leads fits its program: that which begins, and that which goes on behind a commit or a
/// failure.
pub fn moves_keep_types()
    ensures begun { (k : Kept) (b : Id) (n : ℕ) (name : List ℕ) (args : List Value) (vars : List Binding) (p : ProgramDef) (at : Position) →
        IsTyped k → kept_program name k ≡ Some p → are_arguments p.params args ≡ true → AreVariables (bindings (program_scope p)) vars → next_on_commit (parts_of p) 1 ≡ Some at →
        IsContOf k (record { base = b; accepted = n; program = p.name; args = args; vars = values_kept p vars; next = at.part; tries = at.tries }) }
    ensures commit { (k : Kept) (b : Id) (c : Cont) (p : ProgramDef) (vars : List Binding) (at : Position) →
        IsTyped k → cont_of b k ≡ Some c → kept_program c.program k ≡ Some p → AreVariables (bindings (program_scope p)) vars → next_on_commit (parts_of p) c.next ≡ Some at →
        IsContOf k (record c { vars = values_kept p vars; next = at.part; tries = at.tries }) }
    ensures failure { (k : Kept) (b : Id) (c : Cont) (p : ProgramDef) (at : Position) →
        IsTyped k → cont_of b k ≡ Some c → kept_program c.program k ≡ Some p → next_on_failure (parts_of p) c.next c.tries ≡ Some at →
        IsContOf k (record c { next = at.part; tries = at.tries }) }
{}

/// What lines of bytes ask for has keys.
pub fn read_lines_have_keys()
    ensures { (texts : List (List ℕ)) (lines : List Asked) → AskInOrder texts lines → Every HasKey lines }
{}

/// At each place of a played trace, from a start that fits its definitions and over lines whose tables have keys, what is kept fits
/// its definitions, with the decision in flight too, and open units are of their types. What they do is not refused.
pub fn played_is_typed()
    ensures here { (trace : Trace) → IsPlayed trace → WellKept (start_of trace).kept → IsTyped (start_of trace).kept →
        Every HasKey (lines_asked trace) → IsTypedAt trace }
    ensures flight { (trace : Trace) → IsPlayed trace → WellKept (start_of trace).kept → IsTyped (start_of trace).kept →
        Every HasKey (lines_asked trace) → IsTyped (kept_with trace (flight trace)) }
    ensures judged { (trace : Trace) → IsPlayed trace → WellKept (start_of trace).kept → IsTyped (start_of trace).kept →
        Every HasKey (lines_asked trace) → Each IsJudgedEvent trace }
{}

/// So the state that goes along with such a trace is of its types, and so is what each event that may stand makes of it.
pub fn states_are_of_their_types()
    ensures here { (s : UnitState) (trace : Trace) → KeepsUnits s trace → IsSound trace → IsTyped (start_of trace).kept →
        Every HasKey (lines_asked trace) → AreOfTheirTypes s }
    ensures says { (s : UnitState) (trace : Trace) (e : Event) → KeepsUnits s trace → IsSound (trace says e) →
        IsTyped (start_of trace).kept → Every HasKey (lines_asked trace) → AreOfTheirTypes (units_after e s) }
{
    units_go_on();
}

/// What devices stand for fits its definitions, where what reads their texts gives tables whose keys may not be NULL.
pub fn found_is_typed()
    ensures { (read : List ℕ → Option Definition) →
        ((text : List ℕ) (d : TableDef) → read text ≡ Some (OfTable d) → has_key d.columns ≡ true) →
        (devices : ℕ → List ℕ) (asked : Shape) (f : Found Definition) → stands_of (definitions_reading read) devices asked ≡ Some f →
        IsTyped (kept_in f) }
{}

/// A change that fits a coordinator's definitions is sound in the partition of its key, whatever reads their texts; so are all of a
/// unit's. A continuation that fits is one that its program may have.
pub fn typed_changes_are_sound()
    ensures one { (read : List ℕ → Option Definition) (c : Coordinator Definition) (ch : Change) →
        FitsAt (tables_defined c.definitions) (changed_at ch) ch.row →
        is_sound_change (definitions_reading read) c (part_of_key c.log.header.shape ch.key) ch ≡ true }
    ensures all { (read : List ℕ → Option Definition) (c : Coordinator Definition) (cs : List Change) → AreChangesOf (tables_defined c.definitions) cs →
        list_all (λ (ch : Change). is_sound_change (definitions_reading read) c (part_of_key c.log.header.shape ch.key) ch) cs ≡ true }
    ensures conts { (read : List ℕ → Option Definition) (k : Kept) (c : Cont) → IsContOf k c →
        (definitions_reading read).fits_cont k.definitions c ≡ true }
{}
