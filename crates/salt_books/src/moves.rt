//! The moves of programs at the decided ends of their units.

ghost use Rattle.law_states.specs.Rising.{Rising};
ghost use Rattle.salt_books.specs.Bases.{bases_in};
ghost use Rattle.salt_books.specs.Moves.{CanMove, IsAtPart, IsNext, MovesTo, begun, conts_ended};
ghost use Rattle.salt_cont.specs.Catalogues.{AllLeadOn};
ghost use Rattle.salt_model.specs.Kept.{Kept, conts_branched, conts_committed, programs_of, values_kept};
ghost use Rattle.salt_model.specs.declared.events.UnitKind.TheVariants.{First, Later};
ghost use Rattle.salt_stands.specs.OpenConts.{do_rise};
ghost use Rattle.std.specs.Prelude.{IfOk, IsTrue, true, ℕ, ◌+◌, ◌≡◌};

use crate::bindings::values_kept;
use crate::conts::cont_among;
use salt_ast::ProgramDef;
use salt_cont::{Move, advance, named_leads_on};
use salt_model::{UnitKind, Vars};
use salt_program::Catalogue;
use salt_values::{Cont, Id, Name, Row, TryCopy};
use sqlite_items::Items;
use std::alloc::{AllocError, Global};

/// A program at its first part, accepted by the decision of this number.
fn at_first(
    alloc: Global,
    def: &ProgramDef,
    base: Id,
    accepted: u64,
    args: &Row,
    vars: &Vars,
) -> Result<Cont, AllocError>
    ensures { IfOk result (λ cont. cont ≡ record {
      base = base;
      accepted = accepted;
      program = def.now.name;
      args = args.now;
      vars = values_kept def.now vars.now;
      next = 1;
      tries = 0;
    }) }
{
    Ok(Cont {
        base,
        accepted,
        program: def.name.copy(alloc)?,
        args: args.copy(alloc)?,
        vars: values_kept(alloc, def, vars.as_slice())?,
        next: 1,
        tries: 0,
    })
}

/// The move of a program behind its first part: one that ends there was not accepted before.
fn begun(made: Move) -> Move
    ensures { result ≡ begun made }
{
    match made {
        Move::Continue(cont) => Move::Continue(cont),
        Move::Finish(_) => Move::Plain,
        Move::Plain => Move::Plain,
    }
}

/// The first part of a program is committed by the decision of this number: the program goes on from there, unless it ends.
fn move_of_first(
    alloc: Global,
    catalogue: &Catalogue,
    base: Id,
    number: u64,
    program: &Name,
    args: &Row,
    vars: &Vars,
) -> Result<Move, AllocError>
    requires { AllLeadOn catalogue.now }
    ensures { IfOk result (λ made. (k : Kept) (session : ℕ) → catalogue.now ≡ programs_of k → number ≡ k.decisions + 1
        → CanMove k (First session base program.now args.now)
        → MovesTo made k (conts_committed k number (First session base program.now args.now) vars.now)) }
{
    named_leads_on();
    let Some(def) = catalogue.find(program) else {
        return Ok(Move::Plain);
    };
    let cont = at_first(alloc, def, base, number, args, vars)?;
    let made = advance(alloc, catalogue, &cont, &cont.vars, false)?;
    Ok(begun(made))
}

/// A decided end of the part at which a program stands, a commit or a failure: the program goes on from there with these
/// variables, or ends.
fn move_of_part(
    alloc: Global,
    catalogue: &Catalogue,
    conts: &[Cont],
    rising: bool,
    base: Id,
    vars: &Vars,
    failed: bool,
) -> Result<Move, AllocError>
    requires lead_on { AllLeadOn catalogue.now }
    requires ordered { IsTrue rising → Rising (bases_in conts.now) }
    ensures { IfOk result (λ made. (k : Kept) (number part : ℕ) → catalogue.now ≡ programs_of k → conts.now ≡ k.conts → IsNext k base part
        → do_rise k.conts ≡ true → MovesTo made k (conts_ended failed k number (Later base part) vars.now)) }
{
    named_leads_on();
    let Some(cont) = cont_among(conts, rising, base) else {
        return Ok(Move::Plain);
    };
    let Some(def) = catalogue.find(&cont.program) else {
        return Ok(Move::Plain);
    };
    let values = values_kept(alloc, def, vars.as_slice())?;
    advance(alloc, catalogue, cont, &values, failed)
}

/// The move that a unit of this kind makes as it commits, with these variables, by the decision of this number.
pub fn move_of_commit(
    alloc: Global,
    catalogue: &Catalogue,
    conts: &[Cont],
    rising: bool,
    number: u64,
    kind: &UnitKind,
    vars: &Vars,
) -> Result<Move, AllocError>
    requires lead_on { AllLeadOn catalogue.now }
    requires ordered { IsTrue rising → Rising (bases_in conts.now) }
    ensures { IfOk result (λ made. (k : Kept) → catalogue.now ≡ programs_of k → conts.now ≡ k.conts → number ≡ k.decisions + 1
        → IsAtPart k kind.now → CanMove k kind.now → MovesTo made k (conts_committed k number kind.now vars.now)) }
{
    match kind {
        UnitKind::Acid { .. } => Ok(Move::Plain),
        UnitKind::Call { .. } => Ok(Move::Plain),
        UnitKind::First {
            base,
            program,
            args,
            ..
        } => move_of_first(alloc, catalogue, *base, number, program, args, vars),
        UnitKind::Later { base, .. } => {
            move_of_part(alloc, catalogue, conts, rising, *base, vars, false)
        }
    }
}

/// The move that a unit of this kind makes as it fails, where its program goes on behind the failure.
pub fn move_of_branch(
    alloc: Global,
    catalogue: &Catalogue,
    conts: &[Cont],
    rising: bool,
    kind: &UnitKind,
) -> Result<Move, AllocError>
    requires lead_on { AllLeadOn catalogue.now }
    requires ordered { IsTrue rising → Rising (bases_in conts.now) }
    ensures { IfOk result (λ made. (k : Kept) → catalogue.now ≡ programs_of k → conts.now ≡ k.conts
        → IsAtPart k kind.now → CanMove k kind.now → MovesTo made k (conts_branched k kind.now)) }
{
    match kind {
        UnitKind::Acid { .. } => Ok(Move::Plain),
        UnitKind::Call { .. } => Ok(Move::Plain),
        UnitKind::First { .. } => Ok(Move::Plain),
        UnitKind::Later { base, .. } => {
            let vars = Items::new(alloc);
            move_of_part(alloc, catalogue, conts, rising, *base, &vars, true)
        }
    }
}
