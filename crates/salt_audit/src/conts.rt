//! Where programs go on, and what the ends of their units make of it.

ghost use Rattle.salt_ast.specs.ProgramJudgement.{program_named};
ghost use Rattle.salt_audit.specs.Standing.{cont_named, is_of};
ghost use Rattle.salt_audit.specs.Telling.{branched_by, committed_by, conts_ended, first_by, later_by, with_last};
ghost use Rattle.salt_cont.specs.Catalogues.{AllLeadOn};
ghost use Rattle.salt_cont.specs.Continued.{after_move};
ghost use Rattle.salt_model.specs.Kept.{change_cont, without_cont};
ghost use Rattle.std.specs.List.{position_from};
ghost use Rattle.std.specs.Option.{option_copied};
ghost use Rattle.std.specs.Prelude.{IfOk, OnOk, [], ◌≡◌};

use crate::state::Begun;
use salt_ast::ProgramDef;
use salt_cont::{Move, advance, named_leads_on};
use salt_model::{End, UnitKind};
use salt_program::Catalogue;
use salt_values::{Cont, Conts, Id, Name, Row, TryCopy, is_same_id};
use std::alloc::{AllocError, Global};

/// The continuation of a program.
pub fn cont_named(conts: &[Cont], base: Id) -> Option<&Cont>
    ensures { option_copied result ≡ cont_named base conts.now }
{
    conts.iter().find(|cont| is_same_id(base, cont.base))
}

fn place_of(conts: &[Cont], base: Id) -> Option<usize>
    ensures { result ≡ position_from (is_of base) 0 conts.now }
{
    conts.iter().position(|cont| is_same_id(base, cont.base))
}

/// A program that goes on does so from another place.
fn change(conts: &mut Conts, base: Id, cont: Cont)
    ensures { conts.new ≡ change_cont base (λ c. cont) conts.old }
{
    if let Some(at) = place_of(conts.as_slice(), base) {
        conts.set(at, cont);
    }
}

/// A program that goes on ends.
fn leave(conts: &mut Conts, base: Id)
    ensures { conts.new ≡ without_cont base conts.old }
{
    if let Some(at) = place_of(conts.as_slice(), base) {
        let _cont = conts.remove(at);
    }
}

/// A program that goes on is moved, or ends.
fn put(conts: &mut Conts, base: Id, made: Move)
    ensures { conts.new ≡ after_move base made conts.old }
{
    match made {
        Move::Continue(cont) => change(conts, base, cont),
        Move::Finish(base) => leave(conts, base),
        Move::Plain => {}
    }
}

/// A program that goes on behind its first part is the last of those that do; one that ends there goes on nowhere.
fn put_last(conts: &mut Conts, made: Move) -> Result<(), AllocError>
    ensures { OnOk result (conts.new ≡ with_last made conts.old) }
{
    match made {
        Move::Continue(cont) => conts.push(cont),
        Move::Finish(_) => Ok(()),
        Move::Plain => Ok(()),
    }
}

/// A program at its first part, accepted by the decision of this number. Its variables are not told.
fn at_first(
    alloc: Global,
    def: &ProgramDef,
    base: Id,
    accepted: u64,
    args: &Row,
) -> Result<Cont, AllocError>
    ensures { IfOk result (λ cont. cont ≡ record {
      base = base;
      accepted = accepted;
      program = def.now.name;
      args = args.now;
      vars = [];
      next = 1;
      tries = 0;
    }) }
{
    Ok(Cont {
        base,
        accepted,
        program: def.name.copy(alloc)?,
        args: args.copy(alloc)?,
        vars: Row::new(alloc),
        next: 1,
        tries: 0,
    })
}

/// The first part of a program is committed by the decision of this number: the program goes on from there, unless it ends.
fn first(
    alloc: Global,
    catalogue: &Catalogue,
    conts: &mut Conts,
    base: Id,
    number: u64,
    program: &Name,
    args: &Row,
) -> Result<(), AllocError>
    requires { AllLeadOn catalogue.now }
    ensures { OnOk result (conts.new ≡ first_by base number args.now (program_named catalogue.now program.now) conts.old) }
{
    named_leads_on();
    let Some(def) = catalogue.find(program) else {
        return Ok(());
    };
    let cont = at_first(alloc, def, base, number, args)?;
    let made = advance(alloc, catalogue, &cont, &cont.vars, false)?;
    put_last(conts, made)?;
    Ok(())
}

/// The continuation, at this part.
fn at_part(alloc: Global, cont: &Cont, part: u32) -> Result<Cont, AllocError>
    ensures { IfOk result (λ made. made ≡ record cont.now { next = part }) }
{
    Ok(Cont {
        base: cont.base,
        accepted: cont.accepted,
        program: cont.program.copy(alloc)?,
        args: cont.args.copy(alloc)?,
        vars: cont.vars.copy(alloc)?,
        next: part,
        tries: cont.tries,
    })
}

/// A later part, of this number, is committed or has failed. The part is that with which its unit began, which need not be the one
/// at which the program now stands.
fn later(
    alloc: Global,
    catalogue: &Catalogue,
    conts: &mut Conts,
    base: Id,
    part: u32,
    failed: bool,
) -> Result<(), AllocError>
    requires { AllLeadOn catalogue.now }
    ensures { OnOk result (conts.new ≡ later_by failed catalogue.now base part conts.old) }
{
    named_leads_on();
    let Some(cont) = cont_named(conts.as_slice(), base) else {
        return Ok(());
    };
    let Some(_def) = catalogue.find(&cont.program) else {
        return Ok(());
    };
    let from = at_part(alloc, cont, part)?;
    let made = advance(alloc, catalogue, &from, &from.vars, failed)?;
    put(conts, base, made);
    Ok(())
}

/// A unit of this kind commits by the decision of this number.
fn commit(
    alloc: Global,
    catalogue: &Catalogue,
    conts: &mut Conts,
    number: u64,
    kind: &UnitKind,
) -> Result<(), AllocError>
    requires { AllLeadOn catalogue.now }
    ensures { OnOk result (conts.new ≡ committed_by catalogue.now number kind.now conts.old) }
{
    match kind {
        UnitKind::Acid { .. } => Ok(()),
        UnitKind::Call { .. } => Ok(()),
        UnitKind::First {
            base,
            program,
            args,
            ..
        } => first(alloc, catalogue, conts, *base, number, program, args),
        UnitKind::Later { base, part } => later(alloc, catalogue, conts, *base, *part, false),
    }
}

/// A unit of this kind fails, where its program goes on behind the failure.
fn branch(
    alloc: Global,
    catalogue: &Catalogue,
    conts: &mut Conts,
    kind: &UnitKind,
) -> Result<(), AllocError>
    requires { AllLeadOn catalogue.now }
    ensures { OnOk result (conts.new ≡ branched_by catalogue.now kind.now conts.old) }
{
    match kind {
        UnitKind::Acid { .. } => Ok(()),
        UnitKind::Call { .. } => Ok(()),
        UnitKind::First { .. } => Ok(()),
        UnitKind::Later { base, part } => later(alloc, catalogue, conts, *base, *part, true),
    }
}

/// What the end of a unit makes of where programs go on; nothing, where it has not begun. An `AllocError` leaves them in no state that
/// is told.
pub fn end_part(
    alloc: Global,
    catalogue: &Catalogue,
    conts: &mut Conts,
    note: Option<&Begun>,
    how: &End,
) -> Result<(), AllocError>
    requires { AllLeadOn catalogue.now }
    ensures { OnOk result (conts.new ≡ conts_ended catalogue.now how.now (option_copied note.entry) conts.old) }
{
    let Some(note) = note else {
        return Ok(());
    };
    match how {
        End::Committed(number) => commit(alloc, catalogue, conts, *number, &note.kind),
        End::Branched(_number, _cause) => branch(alloc, catalogue, conts, &note.kind),
        End::Failed(_cause) => Ok(()),
        End::RolledBack => Ok(()),
        End::Victim => Ok(()),
        End::Cut => Ok(()),
    }
}
