//! Whether a move may be made of the open continuations.

ghost use Rattle.salt_found.specs.Conts.{fits_move, follow};
ghost use Rattle.salt_found.specs.Moves.{LeavesConts};
ghost use Rattle.salt_bytes.specs.Conts.{move_in};
ghost use Rattle.salt_model.specs.Kept.{cont_in};
ghost use Rattle.salt_stands.specs.OpenConts.{do_rise, go_to, is_accepted_before, make_move};
ghost use Rattle.salt_values.specs.Id.{is_same_id};
ghost use Rattle.salt_values.specs.declared.cont.Cont.{Cont};
ghost use Rattle.std.specs.List.{find, list_all};
ghost use Rattle.std.specs.Option.{option_copied};
ghost use Rattle.std.specs.Prelude.{Some, is_some, true, ◌≡◌};

use crate::error::ContErr;
use crate::fits::fits_kept;
use salt_bytes::Move;
use salt_codec::take_move;
use salt_decisions::{Kept, apply_move};
use salt_program::Catalogue;
use salt_values::{Cont, Conts, Id};
use std::alloc::Global;

fn first_of(conts: &[Cont], base: Id) -> Option<&Cont>
    ensures { option_copied result ≡ find (λ (c : Cont). is_same_id base c.base) conts.now }
{
    conts.iter().find(|cont| base == cont.base)
}

/// The open continuation of a program.
fn cont_in(conts: &[Cont], base: Id) -> Option<&Cont>
    ensures { option_copied result ≡ cont_in base conts.now }
{
    first_of(conts, base)
}

fn are_accepted_before(conts: &[Cont], cont: &Cont) -> bool
    ensures { result ≡ list_all (is_accepted_before cont.now) conts.now }
{
    conts.iter().all(|going| going.accepted < cont.accepted)
}

/// Whether a program may go on so: the number of its acceptance is that of the open one, or else above those of all open ones.
fn may_go_to(conts: &[Cont], cont: &Cont) -> bool
    ensures { result ≡ is_some (go_to cont.now (cont_in cont.now.base conts.now) conts.now) }
{
    match cont_in(conts, cont.base) {
        Some(going) => cont.accepted == going.accepted,
        None => are_accepted_before(conts, cont),
    }
}

fn may_move(conts: &[Cont], made: &Move) -> bool
    ensures { result ≡ is_some (make_move conts.now made.now) }
{
    match made {
        Move::Plain => true,
        Move::Continue(cont) => may_go_to(conts, cont),
        Move::Finish(base) => cont_in(conts, *base).is_some(),
    }
}

/// Whether the continuation in a move is one that a program may have.
fn fits_move(catalogue: &Catalogue, kept: &Kept, made: &Move) -> bool
    ensures { result ≡ fits_move catalogue.now kept.now (Some made.now) }
{
    match made {
        Move::Plain => true,
        Move::Continue(cont) => fits_kept(catalogue, kept, cont),
        Move::Finish(_) => true,
    }
}

/// Makes the move that these bytes are. `NotMove` exactly where they are none, or one that may not be made.
pub fn follow(
    alloc: Global,
    catalogue: &Catalogue,
    kept: &Kept,
    conts: &mut Conts,
    mv: &[u8],
) -> Result<(), ContErr>
    ensures { do_rise conts.old ≡ true → LeavesConts result conts.new (follow catalogue.now kept.now (move_in kept.now.format mv.now) conts.old) }
{
    let Some(made) = take_move(alloc, kept.format, mv)? else {
        return Err(ContErr::NotMove);
    };
    if !fits_move(catalogue, kept, &made) || !may_move(conts.as_slice(), &made) {
        return Err(ContErr::NotMove);
    }
    apply_move(conts, made)?;
    Ok(())
}
