//! The continuations that moves leave open, each move by its bytes.

ghost use Rattle.salt_decisions.specs.Moves.{moved_by, then_moved};
ghost use Rattle.salt_stands.specs.OpenConts.{do_rise};
ghost use Rattle.salt_values.specs.declared.cont.Cont.{Cont};
ghost use Rattle.std.specs.Prelude.{IfOk, List, OnOk, Some, true, ◌≡◌};

use crate::moves::apply_move;
use salt_codec::take_move;
use salt_values::{Bytes, Cont, Conts, copies};
use std::alloc::{AllocError, Global};

/// Makes the move that these bytes are, where it may be made; what cannot be read changes nothing. After an error the
/// continuations are as before.
pub fn go_on(alloc: Global, format: u8, conts: &mut Conts, mv: &[u8]) -> Result<(), AllocError>
    ensures { do_rise conts.old ≡ true → (cs : List Cont) → then_moved format mv.now (Some conts.old) ≡ Some cs → OnOk result (conts.new ≡ cs) }
{
    match take_move(alloc, format, mv)? {
        Some(made) => apply_move(conts, made),
        None => Ok(()),
    }
}

/// The continuations that are open behind these moves, made one after another from those of a header.
pub fn going_behind(
    alloc: Global,
    format: u8,
    header: &[Cont],
    moves: &[Bytes],
) -> Result<Conts, AllocError>
    ensures { do_rise header.now ≡ true → (cs : List Cont) → moved_by format (Some header.now) moves.now ≡ Some cs → IfOk result (λ made. made ≡ cs) }
{
    let mut conts = copies(alloc, header)?;
    for mv in moves {
        go_on(alloc, format, &mut conts, mv.as_slice())?;
    }
    Ok(conts)
}
