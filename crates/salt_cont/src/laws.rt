//! A move makes of the continuations that are kept what the definitions say of its unit, and programs that are defined within the
//! limits meet what moves and rests ask of them.

ghost use Rattle.salt_ast.specs.ProgramLimits.{program_limit};
ghost use Rattle.salt_ast.specs.declared.programs.ProgramDef.{ProgramDef};
ghost use Rattle.salt_ast.specs.declared.trees.TableDef.{TableDef};
ghost use Rattle.salt_cont.specs.Catalogues.{AllAreFew, AllLeadOn};
ghost use Rattle.salt_cont.specs.Continued.{StandsAt, after_move};
ghost use Rattle.salt_cont.specs.Moves.{LeadOn, move_on, parts_named};
ghost use Rattle.salt_cont.specs.Rests.{AreFew};
ghost use Rattle.salt_model.specs.Kept.{Kept, conts_branched, conts_committed, programs_of, values_kept};
ghost use Rattle.salt_model.specs.declared.events.UnitKind.{UnitKind};
ghost use Rattle.salt_model.specs.declared.vars.Binding.{Binding};
ghost use Rattle.salt_program.specs.Refusals.{parts_in, program_refusal};
ghost use Rattle.salt_values.specs.declared.cont.Cont.{Cont};
ghost use Rattle.salt_values.specs.declared.id.Id.{Id};
ghost use Rattle.salt_values.specs.declared.value.Value.{Value};
ghost use Rattle.std.specs.Prelude.{List, None, [], false, length, true, ℕ, ◌++◌, ◌<◌, ◌^◌, ◌∷◌, ◌≡◌};

/// Behind the commit of a later part its continuation is moved.
pub fn commits_move()
    ensures { (k : Kept) (n : ℕ) (b : Id) (c : Cont) (p : ProgramDef) (vars : List Binding) → StandsAt k b c p →
        conts_committed k n (UnitKind.Later b c.next) vars ≡ after_move b (move_on (programs_of k) c (values_kept p vars) false) k.conts }
{}

/// Behind the branch of a later part its continuation is moved.
pub fn branches_move()
    ensures { (k : Kept) (b : Id) (c : Cont) (p : ProgramDef) (vars : List Value) → StandsAt k b c p →
        conts_branched k (UnitKind.Later b c.next) ≡ after_move b (move_on (programs_of k) c vars true) k.conts }
{}

/// One more program that is not refused leads on as those before it do.
pub fn accepted_leads_on()
    ensures { (schema : List TableDef) (catalogue : List ProgramDef) (p : ProgramDef) → AllLeadOn catalogue → length (parts_in p.body) < 2 ^ 32 →
        program_refusal schema catalogue p ≡ None → AllLeadOn (catalogue ++ p ∷ []) }
{}

/// So a program leads on by whatever name it is found.
pub fn named_leads_on()
    ensures { (catalogue : List ProgramDef) (name : List ℕ) → AllLeadOn catalogue → LeadOn (parts_named catalogue name) }
{}

/// One more program within the limits has few parts as those before it have.
pub fn limited_are_few()
    ensures { (catalogue : List ProgramDef) (p : ProgramDef) → AllAreFew catalogue → program_limit p ≡ None → AllAreFew (catalogue ++ p ∷ []) }
{}

/// So the parts are few by whatever name they are found.
pub fn named_are_few()
    ensures { (catalogue : List ProgramDef) (name : List ℕ) → AllAreFew catalogue → AreFew (parts_named catalogue name) }
{}
